// The host's replies to a peer's request for other connection parameters.
ghost use Rattle.std.specs.Prelude.{◌≤◌};
ghost use Rattle.links.specs.Links.{CountsFit, opened};
ghost use Rattle.commands.specs.Outcome.{Answers, GivesAny};
ghost use Rattle.commands.specs.Put.{put_links};
ghost use Rattle.commands.specs.Link.{parameter_request_reply, parameter_request_negative_reply};

use crate::update::{apply, asked};
use answers::Answer;
use commands::Answered;
use hci::status::{SUCCESS, UNKNOWN_CONNECTION};
use links::Links;
use state::Controller;

// LE Remote Connection Parameter Request Reply (section 7.8.31).
#[tactic(auto, unfolding(commands::specs::Link::parameter_request_reply))]
pub fn parameter_request_reply(s: Controller, p: &[u8; 14]) -> Answered<Links>
    requires { CountsFit s.links }
    ensures { GivesAny (parameter_request_reply p.now) s (put_links result.part s) result.answer }
{
    let handle = octets::word_at(p, 0);
    match asked(s.links, p) {
        Ok(timing) => apply(s, handle, timing, answers::done_handle(SUCCESS, handle)),
        Err(code) => Answered::done_handle(s.links, Err(code), handle),
    }
}

// LE Remote Connection Parameter Request Negative Reply (section 7.8.32).
#[tactic(auto, unfolding(commands::specs::Link::parameter_request_negative_reply))]
pub fn parameter_request_negative_reply(links: Links, p: &[u8; 3]) -> Answer
    requires { links.count ≤ 16 }
    ensures { Answers (parameter_request_negative_reply p.now (opened links)) result }
{
    let handle = octets::word_at(p, 0);
    if links::has(links, handle) {
        return answers::done_handle(SUCCESS, handle);
    }
    answers::done_handle(UNKNOWN_CONNECTION, handle)
}
