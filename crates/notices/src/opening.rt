// A link opens, by itself or by a central's request to connect, or advertising ends without one.
ghost use Rattle.std.specs.Prelude.{◌≡◌, true, cond};
ghost use Rattle.links.specs.Links.{CountsFit, opened, can_open};
ghost use Rattle.commands.specs.Outcome.{GivesAny};
ghost use Rattle.commands.specs.Put.{put_links};
ghost use Rattle.notices.specs.Notices.{open_connection, accept_connection, advertising_timeout};

use crate::silent;
use commands::{Answered, ConnectionComplete};
use hci::status::{ADVERTISING_TIMEOUT, SUCCESS};
use links::{Links, Timing};
use state::Controller;

// A link opens with the defaults of a new LE connection; the host is told nothing.
#[tactic(auto, unfolding(crate::specs::Notices::open_connection))]
pub fn open_connection(s: Controller, handle: u16, timing: Timing) -> Answered<Links>
    requires { CountsFit s.links × (can_open handle (opened s.links) ≡ true) }
    ensures { GivesAny (open_connection handle timing.interval timing.latency timing.timeout)
        s (put_links result.part s) result.answer }
{
    silent::untold(links::open_connection(s.links, handle, timing))
}

// A central's CONNECT_IND: advertising ends and the link opens, also where the event is masked. The role is 0x01, peripheral. An
// address in a CONNECT_IND is public or random, by one bit (TxAdd), so `peer_random` is a flag; the one caller has it beside the
// address, as C hands them in, and a type for both would be made there and taken apart here.
#[tactic(auto, unfolding(crate::specs::Notices::accept_connection))]
pub fn accept_connection(
    s: Controller,
    handle: u16,
    peer_random: bool,
    peer: [u8; 6],
    timing: Timing,
    sca: u8,
) -> Answered<Controller>
    requires { CountsFit s.links × (can_open handle (opened s.links) ≡ true) }
    ensures { GivesAny (accept_connection handle (cond peer_random 1 0) peer timing.interval timing.latency timing.timeout sca)
        s result.part result.answer }
{
    let [low, high] = handle.to_le_bytes();
    let complete = ConnectionComplete {
        head: [SUCCESS, low, high, 0x01, u8::from(peer_random)],
        peer,
        timing,
        clock_accuracy: sca,
        // Neither an advertising set nor a periodic sync.
        sets: [0xFF; 3],
    };
    let mut accepted = s;
    accepted.advertising.enabled = 0;
    accepted.links = links::open_connection(s.links, handle, timing);
    let silent = answers::silent();
    Answered {
        part: accepted,
        answer: commands::followed_by_connection_complete(silent, s.masks, complete),
    }
}

// High duty cycle directed advertising ended unanswered after 1.28 s (section 7.8.9): advertising ends, and the event that the
// connection failed says Advertising Timeout.
#[tactic(auto, unfolding(crate::specs::Notices::advertising_timeout))]
pub fn advertising_timeout(s: Controller) -> Answered<Controller>
    ensures { GivesAny advertising_timeout s result.part result.answer }
{
    let mut ended = s;
    ended.advertising.enabled = 0;
    let silent = answers::silent();
    Answered {
        part: ended,
        answer: commands::followed_by_connection_failed(silent, s.masks, ADVERTISING_TIMEOUT),
    }
}
