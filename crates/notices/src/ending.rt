// A link ends, by the peer or by the host: its connection and what waits in it are gone, what is in flight stays in use until
// the air settles it.
ghost use Rattle.std.specs.Prelude.{◌≤◌, [], ◌∷◌, ◌++◌};
ghost use Rattle.octets.specs.Octets.{le};
ghost use Rattle.links.specs.Links.{CountsFit};
ghost use Rattle.commands.specs.Outcome.{Answers, GivesAny};
ghost use Rattle.commands.specs.Following.{event_if, enabled_by};
ghost use Rattle.commands.specs.Put.{put_links};
ghost use Rattle.notices.specs.Notices as spec;

use crate::silent;
use answers::Answer;
use commands::Answered;
use hci::event_code::DISCONNECTION_COMPLETE;
use hci::mask;
use hci::status::{LOCAL_HOST_TERMINATED, SUCCESS};
use links::Links;
use state::{Controller, Masks};

// Disconnection Complete (section 7.7.5) for this reason, where Event_Mask enables it.
fn disconnection_complete(masks: Masks, handle: u16, reason: u8) -> Answer
    ensures { Answers (spec.tells (event_if (enabled_by masks.event 4) 0x05 (0x00 ∷ le 2 handle ++ reason ∷ []))) result }
{
    let silent = answers::silent();
    if !masks.enables(mask::DISCONNECTION_COMPLETE) {
        return silent;
    }
    let [low, high] = handle.to_le_bytes();
    commands::followed_by_event(
        silent,
        DISCONNECTION_COMPLETE,
        &[SUCCESS, low, high, reason],
    )
}

// An unknown handle changes and tells nothing.
fn disconnected(s: Controller, handle: u16, reason: u8) -> Answered<Links>
    requires { CountsFit s.links }
    ensures { GivesAny (spec.disconnected handle reason) s (put_links result.part s) result.answer }
{
    if !links::has(s.links, handle) {
        return silent::untold(s.links);
    }
    Answered {
        part: links::end_connection(s.links, handle),
        answer: disconnection_complete(s.masks, handle, reason),
    }
}

// The peer sent LL_TERMINATE_IND.
#[tactic(auto, unfolding(crate::specs::Notices::remote_disconnect))]
pub fn remote_disconnect(s: Controller, handle: u16, reason: u8) -> Answered<Links>
    requires { CountsFit s.links }
    ensures { GivesAny (spec.remote_disconnect handle reason) s (put_links result.part s) result.answer }
{
    disconnected(s, handle, reason)
}

// The peer acknowledged the host's Disconnect: Connection Terminated By Local Host.
#[tactic(auto, unfolding(crate::specs::Notices::complete_disconnect))]
pub fn complete_disconnect(s: Controller, handle: u16) -> Answered<Links>
    requires { CountsFit s.links }
    ensures { GivesAny (spec.complete_disconnect handle) s (put_links result.part s) result.answer }
{
    disconnected(s, handle, LOCAL_HOST_TERMINATED)
}
