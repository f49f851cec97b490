// A command from its opcode to the octets of its answer (`command` of the source): `course_of` says how it is answered, by the
// profile's row, the advertising family and the table of commands, and `answered`, `read` and `carried` follow these courses.
// They give what the command changes, and `putting` puts it into the state. For `on_packet`, which has asked the questions.
// Contracts cite `specs/Calling.antt` and `commands/specs/Command.antt`.
#![tactic(auto)]

use state::{Controller, Counters, Recent, Settings};

mod course;
mod family;
mod putting;
mod record;
mod refusing;
mod running;

pub use course::{Reason, course_of};
pub use refusing::answered;
pub use running::{carried, read};

// What a call gives that tells the host: the state after it, how many octets of events stand at the front of the buffer, and 0 or
// the number of a refusal, as C gets it.
#[repr(C)]
#[derive(Clone, Copy)]
pub struct Told {
    pub state: Controller,
    pub written: usize,
    pub number: u8,
}

// What every command changes, and how many octets of events stand at the front of the buffer.
#[derive(Clone, Copy)]
pub struct Noted {
    pub counters: Counters,
    pub settings: Settings,
    pub recent: Recent,
    pub written: usize,
}

// The same, and the part of the state that the command changes besides; for Reset that is all of the state.
#[derive(Clone, Copy)]
pub struct Changed<P> {
    pub noted: Noted,
    pub part: P,
}
