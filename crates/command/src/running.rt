// A command that is carried out: it changes nothing, or the part of the state that the type parameter names. Both functions count
// the command and set its family first, and remember and write the answer last.
ghost use Rattle.commands.specs.Outcome.{given};
ghost use Rattle.std.specs.Prelude.{List, ℕ};
ghost use Rattle.dispatch.specs.declared.Part.TheVariants as part;
ghost use Rattle.command.specs.Calling.{CanCarry, Gave, carried_by, told_of};

use crate::{Changed, Noted, record};
use dispatch::CommandPart;
use profile::ControllerRow;
use state::Controller;

// A command that changes nothing; address is what Read BD_ADDR tells and random what LE Rand tells. No struct is made of what the
// definition has as `Given`: each half of `dispatch::read` takes three of its four, and the commands take them one by one.
pub fn read(
    s: Controller,
    profile: ControllerRow,
    address: [u8; 6],
    random: u64,
    op: u16,
    p: &[u8],
    out: &mut [u8],
) -> Noted
    requires { CanCarry s profile op part.Nothing p.now out.old }
    ensures { Gave (carried_by (given profile address random p.now) op) profile op s out.old (told_of s result) out.new }
{
    let t = record::begun(s, op);
    let answer = dispatch::read(t, profile, address, random, op, p);
    record::finished(
        t.counters,
        t.settings,
        t.recent,
        profile.num_command_packets,
        op,
        answer,
        out,
    )
}

// A command that changes a part of the state.
pub fn carried<P: CommandPart>(
    s: Controller,
    profile: ControllerRow,
    op: u16,
    p: &[u8],
    out: &mut [u8],
) -> Changed<P>
    requires { CanCarry s profile op P.part p.now out.old }
    ensures { (address : List ℕ) (random : ℕ) → Gave (carried_by (given profile address random p.now) op)
        profile op s out.old (told_of (P.StatePart.put result.part s) result.noted) out.new }
{
    let begun = record::begun(s, op);
    let r = P::carry_out(begun, profile, op, p);
    let t = r.part.put(begun);
    let noted = record::finished(
        t.counters,
        t.settings,
        t.recent,
        profile.num_command_packets,
        op,
        r.answer,
        out,
    );
    Changed {
        noted,
        part: r.part,
    }
}
