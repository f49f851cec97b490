// The link's notices about packets that it took: completed, or gone with their link.
ghost use Rattle.calls.specs.Calls as call;
ghost use Rattle.controller.specs.Answers.{Tells, Changes};

use crate::refusal::ACCEPTED;
use crate::{Changed, Told, questions, telling};
use profile::ControllerRow;
use state::Controller;

// So many packets of a link were completed.
pub fn wegrulsta_completed(
    profile: ControllerRow,
    s: Controller,
    handle: u16,
    count: u16,
    out: &mut [u8],
) -> Told
    ensures { Tells profile (call.completed handle count) s out.old result out.new }
{
    let held = state::holds(s, profile);
    if let Err(refusal) = questions::about_events(profile, held, out.len()) {
        return refusal.told(s);
    }
    let r = notices::completed(s, handle, count);
    telling::heard(s, r, out)
}

// So many packets in flight are gone with their link; the host is told nothing.
pub fn wegrulsta_drop(profile: ControllerRow, s: Controller, count: u16) -> Changed
    ensures { Changes profile (call.drop_in_flight count) s result }
{
    let held = state::holds(s, profile);
    if let Err(refusal) = questions::about_state(profile, held) {
        return refusal.changed(s);
    }
    let r = notices::drop_in_flight(s, count);
    let mut t = s;
    t.links = r.part;
    Changed {
        number: ACCEPTED,
        state: t,
    }
}
