// What is counted and remembered of every command. Inline in each function that carries commands out: out of line the compiler
// would hand it copies of the state (docs/SPEED.md).
ghost use Rattle.std.specs.Prelude.{◌≡◌, ◌≤◌};
ghost use Rattle.answers.specs.Answers.{answer_of};
ghost use Rattle.state.specs.State.{answers_of};
ghost use Rattle.command.specs.Calling.{begun_from, remembered_in, CanFinish, FinishedFrom};

use crate::{Noted, family};
use answers::{Acknowledgement, Answer};
use state::{Controller, Counters, Recent, Settings};

// The state with one command more and the command's family set, which every command that is carried out begins with.
#[inline(always)]
pub fn begun(s: Controller, op: u16) -> Controller
    ensures { result ≡ begun_from op s }
{
    let mut t = s;
    t.counters = s.counters.count_command();
    t.settings = family::with_family(s.settings, op);
    t
}

// The end of every command, which left these counters and settings and found these last answers: its answer is remembered, and
// written to the front of out. The three come apart: a struct of them would be put together in each of the three calls and taken
// apart here.
#[inline(always)]
pub fn finished(
    counters: Counters,
    settings: Settings,
    recent: Recent,
    num: u8,
    op: u16,
    answer: Answer,
    out: &mut [u8],
) -> Noted
    requires { CanFinish recent answer out.old }
    ensures { FinishedFrom counters settings recent num op (answer_of answer) out.old result out.new }
{
    let written = answers::write_answer(answer, num, op, out);
    Noted {
        counters,
        settings,
        recent: remembered(recent, op, answer),
        written,
    }
}

// Opcode and status go to the last answers, unless there was no acknowledgement.
#[tactic(auto, using(crate::proofs::Recording::status_remembered, state::proofs::Keeping::recent_remembered))]
fn remembered(recent: Recent, op: u16, answer: Answer) -> Recent
    requires { recent.count ≤ 32 }
    ensures listed { answers_of result ≡ remembered_in (answer_of answer).form op (answer_of answer).octets (answers_of recent) }
    ensures few { result.count ≤ 32 }
{
    match answer.acknowledgement {
        Acknowledgement::Silent => recent,
        _ => state::remember(recent, op, answer.status()),
    }
}
