// Bench lines (document 01): reading a line, making the call that it asks for, and printing what the call answers. For the
// program `bench` and for the C calls. Contracts cite `specs/Lines.antt` and `specs/Bench.antt`.
#![tactic(auto)]

mod bench;
mod input;
mod print;
mod read;
mod rows;

pub use bench::{Unit, bench_profile, step};
pub use input::run;
use links::Timing;
pub use print::Text;

// What a line that is a record says: a packet, of which so many octets stand at the front of a buffer, a take, a completed
// report, or a link that opens. With the octets in the record a line takes up to 58 ns more, and the bench 656 octets more of
// stack.
#[derive(Clone, Copy)]
pub enum Record {
    Packet(usize),
    Take { handle: u16, most: u16 },
    Completed { handle: u16, count: u16 },
    Open { handle: u16, timing: Timing },
}
