// A packet from the host, by its first octet: what it asks for, a command's parameters, and data, which is queued for its link or
// dropped (`on_packet` and `acl` of the source). For the controller's `on_packet`, which asks its questions first and has
// commands carried out. Data gives the parts of the state that it changes, and the state is put together where the call returns:
// were the whole state to go through, it would be copied more often (docs/SPEED.md). Contracts cite `specs/Receiving.antt`.
#![tactic(auto)]

ghost use Rattle.std.specs.Prelude.{◌≡◌, ◌&&◌, ◌≤◌};
ghost use Rattle.hci.specs.Read.{parse_command};
ghost use Rattle.links.specs.Links.{has, opened};
ghost use Rattle.calls.specs.Packets.{flags_served};
ghost use Rattle.calls.specs.Calls.{held};
ghost use Rattle.state.specs.State.{count_dropped};
ghost use Rattle.receive.specs.Receiving.{CanStore, Delivers, put_delivered, parameters_of, Tasks, CommandTask};

use command::{Reason, Told};
use dispatch::Part;
use h4::{H4_ACL, H4_COMMAND};
use hci::{Acl, Command};
use links::Links;
use profile::{ControllerRow, Rows};
use state::{Controller, Counters};

// What a packet asks for. A command comes with its opcode.
#[derive(Clone, Copy)]
pub enum Task {
    Nothing,
    Data,
    Answered(u16, Reason),
    Carried(u16, Part),
}

// What a packet asks for, where `family` is the advertising family of the state. A packet of another kind, the empty one, and a
// command that is cut short, which can't be acknowledged by its opcode, ask for nothing.
pub fn task_of(rows: &Rows<'_>, family: u8, packet: &[u8]) -> Task
    ensures { Tasks rows.now.opcodes.now rows.now.answers.now family packet.now result }
{
    match packet.first() {
        Some(&H4_ACL) => Task::Data,
        Some(&H4_COMMAND) => match Command::parse(packet) {
            Ok(c) => command_task(rows, family, c.opcode, c.len),
            Err(_) => Task::Nothing,
        },
        _ => Task::Nothing,
    }
}

// A command with this opcode and so many parameters.
fn command_task(rows: &Rows<'_>, family: u8, op: u16, len: u8) -> Task
    ensures { CommandTask rows.now.opcodes.now rows.now.answers.now family op len result }
{
    match command::course_of(rows.answer(op), op, family, usize::from(len)) {
        Ok(part) => Task::Carried(op, part),
        Err(reason) => Task::Answered(op, reason),
    }
}

// The parameters of a command: the part of the packet from its fifth octet, as many as its length says. Empty where the packet is
// no command, or is cut short.
pub fn parameters(packet: &[u8]) -> &[u8]
    ensures { result.now ≡ parameters_of (parse_command packet.now) packet.now }
{
    match Command::parse(packet) {
        Ok(c) => &packet[4..4 + usize::from(c.len)],
        Err(_) => &packet[..0],
    }
}

// What a data packet changes.
#[derive(Clone, Copy)]
pub struct Delivered {
    pub counters: Counters,
    pub links: Links,
}

impl Delivered {
    // What is told after a data packet, which writes no event, from the state before it.
    #[inline(always)]
    pub fn told(self, s: Controller) -> Told
        ensures { (result.number ≡ 0) × (result.written ≡ 0) × (result.state ≡ put_delivered self s) }
    {
        let mut t = s;
        t.counters = self.counters;
        t.links = self.links;
        Told {
            number: 0,
            state: t,
            written: 0,
        }
    }
}

// One data packet more was dropped.
fn dropped(s: Controller) -> Delivered
    ensures { result ≡ record { counters = count_dropped s.counters; links = s.links } }
{
    Delivered {
        counters: s.counters.count_dropped(),
        links: s.links,
    }
}

// Whether a packet with these flags can be queued: it is for one link, so broadcast is 0, and boundary 3 is not served (E2).
fn flags_served(header: Acl) -> bool
    ensures { result ≡ flags_served header }
{
    header.broadcast == 0 && header.boundary <= 2
}

// Whether a packet is for a link that is there, by its flags and then by its handle. One test, and not two with a return behind
// each: the compiler would leave `enqueue` out of line then, and hand it a copy of the links (docs/SPEED.md).
fn has_link(header: Acl, links: Links) -> bool
    requires { links.count ≤ 16 }
    ensures { result ≡ (flags_served header && has header.handle (opened links)) }
{
    flags_served(header) && links::has(links, header.handle)
}

// A data packet (Core Vol 4 Part E section 4.1.1). A host that overruns the buffers gets its packet discarded, not a buffer that
// the device does not have: packets that wait and those in flight, of any link, each hold one.
pub fn data(s: Controller, profile: ControllerRow, pool: &mut [u8], packet: &[u8]) -> Delivered
    requires { CanStore s profile pool.old }
    ensures { Delivers profile packet.now (held s pool.old) (held (put_delivered result s) pool.new) }
{
    let links = s.links;
    let Ok(header) = Acl::parse(packet) else {
        return dropped(s);
    };
    if !has_link(header, links) || header.len > profile.acl_len {
        return dropped(s);
    }
    let places = state::places(profile);
    if links::buffers_in_use(links) >= places.count {
        return dropped(s);
    }
    let n = usize::from(header.len) + 5;
    let waiting = transmit::enqueue(links, pool, places, header.handle, &packet[..n]);
    let mut after = links;
    after.waiting = waiting;
    after.waiting_count = links.waiting_count + 1;
    Delivered {
        counters: s.counters.count_packet(),
        links: after,
    }
}
