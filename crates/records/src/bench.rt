// The bench: document 01's profile and rows, and what is printed for a record, for a line and for all lines.
ghost use Rattle.std.specs.Prelude.{◌≡◌, ℕ, ◌≤◌, List, length, replicate};
ghost use Rattle.links.specs.Links.{view, in_use};
ghost use Rattle.links.specs.Holding.{LinksHold};
ghost use Rattle.state.specs.Holding.{StateHolds};
ghost use Rattle.calls.specs.Calls as call;
ghost use Rattle.calls.specs.Calls.{held};
ghost use Rattle.calls.specs.Gives.{Starts};
ghost use Rattle.bench_profile.specs.Bench.{bench_controller};
ghost use Rattle.records.specs.Bench.{answer_lines, Running, Prints, PrintsAnyPool, Steps};
ghost use Rattle.records.specs.Lines.{record_of};
ghost use Rattle.records.specs.Reading.{call_of, line_of};
ghost use Rattle.records.specs.Text.{text_of};

use crate::{Record, Text, read, rows};
use links::{Links, Timing};
use profile::ControllerRow;
use state::Controller;

// A unit between two lines: its state, which holds together, and its pool with two places.
#[derive(Clone, Copy)]
pub struct Unit {
    pub state: Controller,
    pub pool: [u8; 64],
    pub ghost together: { StateHolds state bench_controller },
}

pub fn bench_profile() -> ControllerRow
    ensures { result ≡ bench_controller }
{
    ControllerRow {
        hci_version: 0,
        hci_subversion: 0,
        lmp_version: 0,
        company: 0,
        lmp_subversion: 0,
        supported_commands: [0; 64],
        lmp_features: [0; 8],
        le_features: 0x100,
        supported_states: [0; 8],
        acl_len: 27,
        acl_count: 2,
        accept_list_size: 2,
        resolving_list_size: 2,
        adv_tx_power: 0,
        tx_power_min: 0,
        tx_power_max: 9,
        max_tx_octets: 251,
        max_tx_time: 2120,
        max_adv_data_len: 0,
        adv_sets: 0,
        num_command_packets: 5,
    }
}

impl Unit {
    // As it starts.
    pub fn new() -> Unit
        ensures { Starts result.state × (result.pool ≡ replicate 64 0) }
    {
        Unit {
            state: controller::default_state(),
            pool: [0; 64],
        }
    }

    // One line, without its newline: what is printed for it, if it is a record. packet is a buffer for the octets of a packet.
    pub fn step(&mut self, line: &[u8], packet: &mut [u8; 1024]) -> Option<Text>
        ensures { Steps line.now (held self.old.state self.old.pool) (held self.new.state self.new.pool) result }
    {
        let record = read_record(line, packet)?;
        Some(make(&mut self.state, &mut self.pool, record, packet))
    }
}

// The same over any pool that has the two places, and with any buffer that has room for the longest packet, so that the first `?`
// never ends it. `Unit::step` doesn't call it: the text would be copied once more.
pub fn step(state: &mut Controller, pool: &mut [u8], line: &[u8], packet: &mut [u8]) -> Option<Text>
    requires { Running (held state.old pool.old) × (1024 ≤ length packet.old) }
    ensures { Steps line.now (held state.old pool.old) (held state.new pool.new) result }
{
    let packet = packet.first_chunk_mut()?;
    let record = read_record(line, packet)?;
    Some(make(state, pool, record, packet))
}

// The record of a line, which has 2,050 octets at most. A packet's octets go to the front of packet.
#[tactic(auto, using(crate::proofs::Making::too_long, crate::proofs::Making::record_read))]
fn read_record(line: &[u8], packet: &mut [u8; 1024]) -> Option<Record>
    ensures { line_of result packet.new ≡ record_of line.now }
{
    if 2050 < line.len() {
        return None;
    }
    read::read_line(line, packet)
}

// The record's call is made. packet holds the octets of a packet.
fn make(state: &mut Controller, pool: &mut [u8], record: Record, packet: &[u8]) -> Text
    requires { Running (held state.old pool.old) }
    ensures { Prints (call_of «record» packet.now) (held state.old pool.old) (held state.new pool.new) (text_of result) }
{
    match record {
        Record::Packet(n) => make_packet(state, pool, &packet[..n.min(packet.len())]),
        Record::Take { handle, most } => make_take(state, pool, handle, most),
        Record::Completed { handle, count } => make_completed(state, handle, count),
        Record::Open { handle, timing } => make_open(state, handle, timing),
    }
}

// A packet of the host.
fn make_packet(state: &mut Controller, pool: &mut [u8], packet: &[u8]) -> Text
    requires { Running (held state.old pool.old) }
    ensures { Prints (call.on_packet (replicate 6 0) 0 packet.now) (held state.old pool.old) (held state.new pool.new)
        (text_of result) }
{
    let mut events = [0u8; 71];
    let r = controller::on_packet(
        bench_profile(),
        &rows::OPCODES,
        &rows::ANSWERS,
        &rows::BITS,
        *state,
        pool,
        &[0; 6],
        0,
        packet,
        &mut events,
    );
    *state = r.state;
    text(b'E', &events[..r.written], r.number, &state.links)
}

// A take.
fn make_take(state: &mut Controller, pool: &[u8], handle: u16, most: u16) -> Text
    requires { Running (held state.old pool.now) }
    ensures { Prints (call.take_transmit handle most) (held state.old pool.now) (held state.new pool.now) (text_of result) }
{
    let mut taken = [0u8; 64];
    let r = controller::take_transmit(
        bench_profile(),
        *state,
        pool,
        handle,
        usize::from(most),
        &mut taken,
    );
    *state = r.state;
    text(b'X', &taken[..r.written], r.number, &state.links)
}

// A report of completed packets.
fn make_completed(state: &mut Controller, handle: u16, count: u16) -> Text
    requires { StateHolds state.old bench_controller }
    ensures { PrintsAnyPool (call.completed handle count) state.old state.new (text_of result) }
{
    let mut events = [0u8; 71];
    let r = controller::completed(bench_profile(), *state, handle, count, &mut events);
    *state = r.state;
    text(b'E', &events[..r.written], r.number, &state.links)
}

// A link that opens, of which the host hears nothing.
fn make_open(state: &mut Controller, handle: u16, timing: Timing) -> Text
    requires { StateHolds state.old bench_controller }
    ensures { PrintsAnyPool (call.open_connection handle timing.interval timing.latency timing.timeout) state.old state.new
        (text_of result) }
{
    let r = controller::open_connection(bench_profile(), *state, handle, timing);
    *state = r.state;
    text(b'E', &[], r.number, &state.links)
}

// What is printed for an answer: a line for each of its packets, and the line that ends it. Each call keeps its new state
// itself, by one line.
fn text(letter: u8, octets: &[u8], number: u8, links: &Links) -> Text
    requires { (length octets.now ≤ 71) × LinksHold links.now 2 32 }
    ensures { (size : ℕ) (pool : List ℕ)
        → text_of result ≡ answer_lines letter octets.now number (in_use (view links.now size pool)) }
{
    let mut text = Text::new();
    text.push_packets(letter, octets);
    text.push_done(number, used(links));
    text
}

// How many buffers are in use. By `as`, of which it is proved that it fits: `try_from` would give an error that never comes.
fn used(links: &Links) -> u8
    requires { LinksHold links.now 2 32 }
    ensures { (size : ℕ) (pool : List ℕ) → result ≡ in_use (view links.now size pool) }
{
    links::buffers_in_use(*links) as u8
}
