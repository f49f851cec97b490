// Encryption of a link: the central's start of it, and the host's replies to a request for a long term key.
ghost use Rattle.std.specs.Prelude.{List, ℕ, ◌≤◌};
ghost use Rattle.octets.specs.Octets.{word};
ghost use Rattle.links.specs.Links.{CountsFit, opened};
ghost use Rattle.commands.specs.Outcome.{Answers, GivesAny, done_handle};
ghost use Rattle.commands.specs.Refused.{YieldsAny};
ghost use Rattle.commands.specs.Put.{put_links};
ghost use Rattle.commands.specs.Link.{enable_encryption, key_reply, long_term_key_reply, long_term_key_negative_reply};
ghost use Rattle.link.specs.Link.{key_replied};

use answers::Answer;
use commands::{Answered, ErrorCode};
use hci::status::{SUCCESS, UNKNOWN_CONNECTION};
use links::Links;
use state::{Controller, Masks};

// LE Enable Encryption (section 7.8.24): encryption is on at once.
#[tactic(auto, unfolding(commands::specs::Link::enable_encryption))]
pub fn enable_encryption(links: Links, masks: Masks, p: &[u8; 28]) -> Answer
    requires { links.count ≤ 16 }
    ensures { Answers (enable_encryption p.now masks (opened links)) result }
{
    let handle = octets::word_at(p, 0);
    if !links::has(links, handle) {
        return answers::status(UNKNOWN_CONNECTION);
    }
    let answer = answers::status(SUCCESS);
    commands::followed_by_encryption_change(answer, masks, handle)
}

// The links as a reply to a request for a link's long term key leaves them, where such a request waits.
fn key_reply(s: Controller, handle: u16) -> Result<Links, ErrorCode>
    requires { CountsFit s.links }
    ensures { (event : List ℕ) → YieldsAny (key_replied handle event) (key_reply handle event) put_links s.links s result }
{
    let c = links::connection_of(s.links, handle).ok_or(ErrorCode::UnknownConnection)?;
    if c.ltk_requested == 0 {
        return Err(ErrorCode::CommandDisallowed);
    }
    Ok(links::set_ltk_requested(s.links, handle, 0))
}

// LE Long Term Key Request Reply (section 7.8.25): encryption is on at once.
#[tactic(auto, unfolding(commands::specs::Link::long_term_key_reply))]
pub fn long_term_key_reply(s: Controller, p: &[u8; 18]) -> Answered<Links>
    requires { CountsFit s.links }
    ensures { GivesAny (long_term_key_reply p.now) s (put_links result.part s) result.answer }
{
    let handle = octets::word_at(p, 0);
    match key_reply(s, handle) {
        Ok(links) => {
            let answer = answers::done_handle(SUCCESS, handle);
            Answered {
                part: links,
                answer: commands::followed_by_encryption_change(answer, s.masks, handle),
            }
        }
        Err(code) => Answered::done_handle(s.links, Err(code), handle),
    }
}

// LE Long Term Key Request Negative Reply (section 7.8.26).
#[tactic(auto, unfolding(commands::specs::Link::long_term_key_negative_reply))]
pub fn long_term_key_negative_reply(s: Controller, p: &[u8; 2]) -> Result<Links, ErrorCode>
    requires { CountsFit s.links }
    ensures { YieldsAny (λ code. done_handle code (word p.now 0)) (long_term_key_negative_reply p.now)
        put_links s.links s result }
{
    key_reply(s, octets::word_at(p, 0))
}
