// LE Connection Update, and what it shares with the reply to a peer's request for other parameters.
ghost use Rattle.std.specs.Prelude.{◌≡◌, ◌≤◌};
ghost use Rattle.links.specs.Links.{CountsFit, opened};
ghost use Rattle.commands.specs.Outcome.{GivesAny};
ghost use Rattle.commands.specs.Put.{put_links};
ghost use Rattle.commands.specs.Link.{connection_update};
ghost use Rattle.link.specs.Link.{asked, Applied};

use answers::Answer;
use commands::{Answered, ConnectionParams, ErrorCode};
use hci::status::SUCCESS;
use links::{Links, Timing};
use state::{Controller, Masks};

// What a link is asked to have.
pub fn asked(links: Links, p: &[u8; 14]) -> Result<Timing, ErrorCode>
    requires { links.count ≤ 16 }
    ensures { result ≡ asked p.now (opened links) }
{
    let params = ConnectionParams::read(p, 2);
    if !params.is_valid() {
        return Err(ErrorCode::InvalidParameters);
    }
    if !links::has(links, octets::word_at(p, 0)) {
        return Err(ErrorCode::UnknownConnection);
    }
    Ok(params.timing())
}

// The link takes the parameters, and LE Connection Update Complete follows the answer.
pub fn apply(s: Controller, handle: u16, timing: Timing, answer: Answer) -> Answered<Links>
    requires { CountsFit s.links }
    ensures { Applied handle timing s answer result.part result.answer }
{
    Answered {
        part: links::set_parameters(s.links, handle, timing),
        answer: commands::followed_by_update(answer, s.masks, handle, timing),
    }
}

// LE Connection Update (section 7.8.18).
#[tactic(auto, unfolding(commands::specs::Link::connection_update))]
pub fn connection_update(s: Controller, p: &[u8; 14]) -> Answered<Links>
    requires { CountsFit s.links }
    ensures { GivesAny (connection_update p.now) s (put_links result.part s) result.answer }
{
    let handle = octets::word_at(p, 0);
    match asked(s.links, p) {
        Ok(timing) => apply(s, handle, timing, answers::status(SUCCESS)),
        Err(code) => Answered::status(s.links, Err(code)),
    }
}
