// What a notice answers that no question refused.
ghost use Rattle.std.specs.Prelude.{◌≡◌};
ghost use Rattle.octets.specs.Octets.{Put};
ghost use Rattle.answers.specs.Answers.{answer_of, octets_of};
ghost use Rattle.controller.specs.Asked.{CanTell};

use crate::Told;
use crate::refusal::ACCEPTED;
use answers::Acknowledgement;
use commands::{Answered, StatePart};
use state::Controller;

// The state with what the notice changed, and its event, if it has one, written to the front of out. A notice has no
// acknowledgement, so there is no opcode, and its event is written from the answer as it stands: by `write_answer` alone, which
// is lent the answer or takes it, a notice with an event takes 13 to 16 instructions more. The second arm is for an
// acknowledgement of no octets, which `CanTell` does not rule out. The state is put together before the event is written
// (docs/SPEED.md). Each notice asks its questions itself: in one function that asks and runs the notice as a closure the state is
// copied once more, and calls take 1 to 28 % more instructions, of those without a buffer 11 to 18 %.
pub fn heard<P: StatePart>(s: Controller, r: Answered<P>, out: &mut [u8]) -> Told
    requires { CanTell r.answer out.old }
    ensures number { result.number ≡ 0 }
    ensures state { result.state ≡ P.put r.part s }
    ensures event { Put out.old 0 (octets_of 0 0 (answer_of r.answer)) result.written out.new }
{
    let t = r.part.put(s);
    let written = match r.answer.acknowledgement {
        Acknowledgement::Silent => answers::write_event(&r.answer, 0, out),
        _ => answers::write_answer(r.answer, 0, 0, out),
    };
    Told {
        number: ACCEPTED,
        state: t,
        written,
    }
}
