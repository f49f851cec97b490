// How a command is answered: carried out, or at once for a reason.
ghost use Rattle.std.specs.Prelude.{ℕ, cond};
ghost use Rattle.profile.specs.Profile.{answer_number};
ghost use Rattle.command.specs.Calling.{Courses};

use crate::family;
use dispatch::Part;
use profile::Answering;

// Why a command is answered without being carried out.
#[derive(Clone, Copy)]
pub enum Reason {
    UnknownRow,
    NoRow,
    // No row either, and a vendor's opcode.
    Vendor,
    OtherFamily,
    Unmodeled,
    BadParameters,
}

// The part of the state that a command changes where it is carried out, or why it is not: by the row's answer to its opcode, with
// `now` the advertising family of the state and n parameter octets.
#[tactic(auto, unfolding(commands::specs::Command::by_row))]
pub fn course_of(answering: Option<Answering>, op: u16, now: u8, n: usize) -> Result<Part, Reason>
    ensures { Courses (answer_number answering) op now n result }
{
    match answering {
        Some(Answering::Unknown) => Err(Reason::UnknownRow),
        None => Err(rowless(op)),
        Some(Answering::Modeled) => listed_row(true, op, now, n),
        Some(Answering::Unmodeled) => listed_row(false, op, now, n),
    }
}

// An opcode without a row: a vendor's succeeds.
#[tactic(auto, unfolding(commands::specs::Command::by_row, commands::specs::Command::rowless))]
fn rowless(op: u16) -> Reason
    ensures { (now n : ℕ) → Courses 3 op now n (Err result) }
{
    if op / 1024 == hci::OGF_VENDOR {
        return Reason::Vendor;
    }
    Reason::NoRow
}

// The family is tested before anything of the command; then the table of commands decides. An opcode or a length that the table
// does not have is Invalid HCI Command Parameters. `modeled` is a bool: handed the `Answering`, this would have an arm for
// `Unknown` too, which no listed row has, and an enum of the other two would say no more than the name.
fn listed_row(modeled: bool, op: u16, now: u8, n: usize) -> Result<Part, Reason>
    ensures { Courses (cond modeled 0 1) op now n result }
{
    if family::other_family(family::family_of(op), now) {
        return Err(Reason::OtherFamily);
    }
    if !modeled {
        return Err(Reason::Unmodeled);
    }
    match commands::place_of(op) {
        Some(place) if commands::fits(place, n) => Ok(dispatch::part_at(place)),
        _ => Err(Reason::BadParameters),
    }
}
