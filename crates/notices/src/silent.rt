// A notice of which the host hears nothing.
ghost use Rattle.std.specs.Prelude.{◌≡◌};
ghost use Rattle.answers.specs.Answers.{silent};
ghost use Rattle.commands.specs.Outcome.{Answers};

use commands::Answered;
use links::Links;

// These links, and nothing told. Each notice asks by itself whether a link has the handle: in one function that asks and calls a
// closure, the closures need contracts as long as those of the notices.
#[inline(always)]
pub fn untold(links: Links) -> Answered<Links>
    ensures { (result.part ≡ links) × Answers silent result.answer }
{
    Answered {
        part: links,
        answer: answers::silent(),
    }
}
