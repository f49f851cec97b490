// Packets that the air took from a link's queue: gone with their link, or completed.
ghost use Rattle.std.specs.Prelude.{◌≤◌};
ghost use Rattle.links.specs.Links.{CountsFit};
ghost use Rattle.commands.specs.Outcome.{GivesAny};
ghost use Rattle.commands.specs.Put.{put_links};
ghost use Rattle.notices.specs.Notices as spec;

use crate::silent;
use commands::Answered;
use hci::event_code::NUMBER_OF_COMPLETED_PACKETS;
use links::Links;
use state::Controller;

// Packets in flight are gone with their link: their buffers are free, and the host is told nothing, since Number Of Completed
// Packets reports live links alone (section 7.7.19).
#[tactic(auto, unfolding(crate::specs::Notices::drop_in_flight))]
pub fn drop_in_flight(s: Controller, count: u16) -> Answered<Links>
    requires { CountsFit s.links }
    ensures { GivesAny (spec.drop_in_flight count) s (put_links result.part s) result.answer }
{
    silent::untold(links::settle(s.links, count))
}

// Number Of Completed Packets (section 7.7.19) of one link, which no mask can disable; none completed, nothing is told.
#[tactic(auto, unfolding(crate::specs::Notices::completed, hci::specs::Packet::pairs))]
pub fn completed(s: Controller, handle: u16, count: u16) -> Answered<Links>
    requires { CountsFit s.links }
    ensures { GivesAny (spec.completed handle count) s (put_links result.part s) result.answer }
{
    if count == 0 {
        return silent::untold(s.links);
    }
    let answer = answers::silent();
    let [low, high] = handle.to_le_bytes();
    let [count_low, count_high] = count.to_le_bytes();
    let params = [1, low, high, count_low, count_high];
    Answered {
        part: links::settle(s.links, count),
        answer: commands::followed_by_event(answer, NUMBER_OF_COMPLETED_PACKETS, &params),
    }
}
