// Document 01's cases by number that no proposition covers, and each refusal number once: what is asked, and the number that
// comes back. The file stdout has document 01's numbers.
#![tactic(auto)]

use links::Timing;
use profile::ControllerRow;
use std::io;

// Of each link that opens.
const TIMING: Timing = Timing {
    interval: 24,
    latency: 0,
    timeout: 42,
};

fn main(rt: HostRuntime) -> io::Result<()> {
    limits_and_rows(&rt)?;
    together_and_pool(&rt)?;
    event_room(&rt)?;
    seventeenth_handle(&rt)?;
    packet_room(&rt)?;
    writers(&rt)?;
    bit(&rt)
}

// The bench's profile.
fn bench() -> ControllerRow {
    records::bench_profile()
}

fn limits_and_rows(rt: &impl Print) -> io::Result<()> {
    let s = controller::default_state();
    let mut small = bench();
    small.acl_len = 26;
    let r = controller::drop_in_flight(small, s, 0);
    println!(rt; "acl_len 26: {}", r.number)?;
    let mut pool = [0u8; 64];
    let mut out = [0u8; 71];
    let reset = [0x01, 0x03, 0x0C, 0x00];
    let q = controller::on_packet(
        bench(),
        &[0x0C03],
        &[3],
        &[0xFFFF],
        s,
        &mut pool,
        &[0; 6],
        0,
        &reset,
        &mut out,
    );
    println!(rt; "a row with answer 3: {}", q.number)
}

fn together_and_pool(rt: &impl Print) -> io::Result<()> {
    let mut s = controller::default_state();
    s.links.count = 17;
    let r = controller::drop_in_flight(bench(), s, 0);
    println!(rt; "a state with 17 links: {}", r.number)?;
    let t = controller::default_state();
    let pool = [0u8; 63];
    let mut out = [0u8; 64];
    let q = controller::take_transmit(bench(), t, &pool, 1, 1, &mut out);
    println!(rt; "a pool of 63 octets: {}", q.number)
}

fn event_room(rt: &impl Print) -> io::Result<()> {
    let s = controller::default_state();
    let mut out = [0u8; 70];
    let r = controller::completed(bench(), s, 1, 1, &mut out);
    println!(rt; "an event buffer of 70 octets: {}", r.number)?;
    let mut more = [0u8; 71];
    let q = controller::completed(bench(), s, 1, 1, &mut more);
    println!(rt; "one of 71: {}", q.number)
}

// Sixteen links are open: a seventeenth handle is refused, one that is open is not.
fn seventeenth_handle(rt: &impl Print) -> io::Result<()> {
    let mut s = controller::default_state();
    for handle in 1..17 {
        s = controller::open_connection(bench(), s, handle, TIMING).state;
    }
    let last = controller::open_connection(bench(), s, 17, TIMING);
    println!(rt; "a 17th handle: {}", last.number)?;
    let again = controller::open_connection(bench(), s, 16, TIMING);
    println!(rt; "the 16th again: {}", again.number)
}

// A packet that waits, and a buffer of less octets than it has.
fn packet_room(rt: &impl Print) -> io::Result<()> {
    let s = controller::default_state();
    let r = controller::open_connection(bench(), s, 1, TIMING);
    let mut pool = [0u8; 64];
    let mut events = [0u8; 71];
    let packet = [0x02, 0x01, 0x00, 0x01, 0x00, 0xAA];
    let q = controller::on_packet(
        bench(),
        &[],
        &[],
        &[],
        r.state,
        &mut pool,
        &[0; 6],
        0,
        &packet,
        &mut events,
    );
    let mut five = [0u8; 5];
    let t = controller::take_transmit(bench(), q.state, &pool, 1, 1, &mut five);
    println!(rt; "a packet of 6 octets into 5: {}", t.number)
}

fn writers(rt: &impl Print) -> io::Result<()> {
    let params = [0u8; 256];
    let mut out = [0u8; 258];
    let long = hci::number_of(hci::event(0x0E, &params, &mut out));
    println!(rt; "an event of 256 parameter octets: {long}")?;
    let mut few = [0u8; 257];
    let wide = hci::number_of(hci::event(0x0E, &params[..255], &mut few));
    println!(rt; "one of 255 into 257 octets: {wide}")
}

fn bit(rt: &impl Print) -> io::Result<()> {
    let refused = hci::number_of(hci::mask_has(0, 64));
    println!(rt; "bit 64: {refused}")
}
