// Which function carries out a command. A command that changes the state changes one part of it, and each part carries out its
// own commands (`CommandPart`): it picks the command by its opcode and gives the new part beside the answer, so that the state
// itself is put together once, by `command`. Commands that change nothing have `read`. Each arm of a match hands on what its
// command needs: a table of functions would hand all of it to each, and is no plainer. Contracts cite `specs/Parts.antt` and the
// table of commands, `specs/Table.antt` of the crate `commands`.
#![tactic(auto)]

ghost use Rattle.std.specs.Prelude.{◌≡◌, ◌<◌, ℕ, List, true, length, get_or};
ghost use Rattle.commands.specs.Outcome.{given, Ready, Gives};
ghost use Rattle.commands.specs.Table.{find, sized};
ghost use Rattle.dispatch.specs.Parts.{parts, rows_of};
ghost use Rattle.dispatch.specs.declared.Part.{Part};
ghost use Rattle.dispatch.specs.declared.Part.TheVariants as variant;

mod linking;
mod listing;
mod reading;
mod setting;

use commands::{Answered, StatePart};
use profile::ControllerRow;
pub use reading::read;
use state::Controller;

// The part of the state that a command changes. Only Reset changes more than one.
#[derive(Clone, Copy)]
pub enum Part {
    Nothing,
    Masks,
    Settings,
    Advertising,
    Scanning,
    AcceptList,
    ResolvingList,
    Links,
    Everything,
}

// A part of the state, by which `part` names it, whose commands are carried out here: the part as it is to be, and the answer.
// `requires` rules other opcodes out, so the last arm of each match is never reached.
pub trait CommandPart: StatePart {
    ghost part: { Part };

    fn carry_out(s: Controller, profile: ControllerRow, op: u16, p: &[u8]) -> Answered<Self>
        requires { Ready s profile × (sized op (rows_of part) (length p.now) ≡ true) }
        ensures { (address : List ℕ) (random : ℕ)
            → Gives ((find op (rows_of part)).does (given profile address random p.now))
            profile s (Self.put result.part s) result.answer };
}

// The parameters as an array, whose length is the one that the command's row in the table says.
fn exactly<const N: usize>(p: &[u8]) -> &[u8; N]
    requires { length p.now ≡ N }
    ensures { result.now ≡ p.now }
{
    p.as_array().unwrap()
}

// The part for each place of the table of commands: a column of that table, which `commands` below cannot name.
const PARTS: [Part; 71] = [
    Part::Links,
    Part::Nothing,
    Part::Masks,
    Part::Everything,
    Part::Nothing,
    Part::Settings,
    Part::Nothing,
    Part::Nothing,
    Part::Masks,
    Part::Nothing,
    Part::Links,
    Part::Nothing,
    Part::Nothing,
    Part::Nothing,
    Part::Nothing,
    Part::Nothing,
    Part::Masks,
    Part::Nothing,
    Part::Nothing,
    Part::Settings,
    Part::Advertising,
    Part::Nothing,
    Part::Advertising,
    Part::Advertising,
    Part::Advertising,
    Part::Scanning,
    Part::Scanning,
    Part::Scanning,
    Part::Scanning,
    Part::Nothing,
    Part::AcceptList,
    Part::AcceptList,
    Part::AcceptList,
    Part::Links,
    Part::Nothing,
    Part::Nothing,
    Part::Nothing,
    Part::Nothing,
    Part::Nothing,
    Part::Nothing,
    Part::Links,
    Part::Links,
    Part::Links,
    Part::Nothing,
    Part::Links,
    Part::Nothing,
    Part::Settings,
    Part::ResolvingList,
    Part::ResolvingList,
    Part::ResolvingList,
    Part::Nothing,
    Part::Nothing,
    Part::Nothing,
    Part::Settings,
    Part::Settings,
    Part::Nothing,
    Part::Nothing,
    Part::Settings,
    Part::Links,
    Part::ResolvingList,
    Part::Nothing,
    Part::Settings,
    Part::Settings,
    Part::Settings,
    Part::Settings,
    Part::Settings,
    Part::Nothing,
    Part::Nothing,
    Part::Nothing,
    Part::Nothing,
    Part::Settings,
];

// The part that the command at a place of the table changes.
pub fn part_at(place: usize) -> Part
    requires { place < 71 }
    ensures { result ≡ get_or parts place variant.Nothing }
{
    let parts = PARTS;
    parts[place]
}
