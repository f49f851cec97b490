// Packets taken for the air.
ghost use Rattle.std.specs.Prelude.{◌≡◌};
ghost use Rattle.calls.specs.Calls as call;
ghost use Rattle.calls.specs.Calls.{held};
ghost use Rattle.calls.specs.Gives.{GivesAnyRows};
ghost use Rattle.controller.specs.Answers.{took};

use crate::refusal::{ACCEPTED, Refusal};
use crate::{Took, questions};
use profile::ControllerRow;
use state::Controller;

// Takes up to max packets of a link, oldest first, end to end to the front of out. Question 7: does out hold them all?
pub fn wegrulsta_take(
    profile: ControllerRow,
    s: Controller,
    pool: &[u8],
    handle: u16,
    max: usize,
    out: &mut [u8],
) -> Took
    ensures { GivesAnyRows profile (call.take_transmit handle max) (held s pool.now) (held result.state pool.now)
        (took result out.old out.new) }
{
    let held = state::holds(s, profile);
    if let Err(refusal) = questions::about_pool(profile, held, pool.len()) {
        return refusal.took(s);
    }
    let places = state::places(profile);
    let Some(r) = transmit::take(s.links, pool, places, handle, max, out) else {
        return Refusal::PacketRoom.took(s);
    };
    let waiting = r.waiting;
    let mut t = s;
    t.links.waiting = waiting;
    t.links.waiting_count = r.waiting_count;
    t.links.in_flight = r.in_flight;
    Took {
        number: ACCEPTED,
        state: t,
        count: r.count,
        written: r.len,
    }
}
