// The central changed a link's parameters, or starts its encryption. For an unknown handle nothing changes and nothing is told.
ghost use Rattle.std.specs.Prelude.{◌≡◌, ◌++◌, ◌≤◌};
ghost use Rattle.octets.specs.Octets.{le};
ghost use Rattle.links.specs.Links.{CountsFit};
ghost use Rattle.commands.specs.Outcome.{GivesAny};
ghost use Rattle.commands.specs.Put.{put_links};
ghost use Rattle.notices.specs.Notices.{peer_update, request_ltk};

use crate::silent;
use commands::Answered;
use hci::subevent::LONG_TERM_KEY_REQUEST;
use links::{Links, Timing};
use state::Controller;

// The central applied a connection update (Core Vol 6 Part B section 5.1.1): LE Connection Update Complete (section 7.7.65.3).
#[tactic(auto, unfolding(crate::specs::Notices::peer_update))]
pub fn peer_update(s: Controller, handle: u16, timing: Timing) -> Answered<Links>
    requires { CountsFit s.links }
    ensures { GivesAny (peer_update handle timing.interval timing.latency timing.timeout)
        s (put_links result.part s) result.answer }
{
    if !links::has(s.links, handle) {
        return silent::untold(s.links);
    }
    Answered {
        part: links::set_parameters(s.links, handle, timing),
        answer: commands::followed_by_update(answers::silent(), s.masks, handle, timing),
    }
}

// The parameters of LE Long Term Key Request.
fn key_request(handle: u16, random: [u8; 8], ediv: u16) -> [u8; 12]
    ensures { result ≡ le 2 handle ++ random ++ le 2 ediv }
{
    let mut params = [0; 12];
    let front = octets::put_two(&mut params, 0, &handle.to_le_bytes(), &random);
    octets::put(&mut params, front, &ediv.to_le_bytes());
    params
}

// A central starts encryption: LE Long Term Key Request (section 7.7.65.5). The request waits for a reply also where its event is
// masked.
#[tactic(auto, unfolding(crate::specs::Notices::request_ltk))]
pub fn request_ltk(s: Controller, handle: u16, random: [u8; 8], ediv: u16) -> Answered<Links>
    requires { CountsFit s.links }
    ensures { GivesAny (request_ltk handle random ediv) s (put_links result.part s) result.answer }
{
    if !links::has(s.links, handle) {
        return silent::untold(s.links);
    }
    let answer = answers::silent();
    let params = key_request(handle, random, ediv);
    Answered {
        part: links::set_ltk_requested(s.links, handle, 1),
        answer: commands::followed_by_le(answer, s.masks, LONG_TERM_KEY_REQUEST, &params),
    }
}
