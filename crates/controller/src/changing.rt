// The link's notices that a link's parameters changed or that its key is asked for.
ghost use Rattle.calls.specs.Calls as call;
ghost use Rattle.controller.specs.Answers.{Tells};

use crate::{Told, questions, telling};
use links::Timing;
use profile::ControllerRow;
use state::Controller;

// The central applied a connection update.
pub fn wegrulsta_update(
    profile: ControllerRow,
    s: Controller,
    handle: u16,
    timing: Timing,
    out: &mut [u8],
) -> Told
    ensures { Tells profile (call.peer_update handle timing.interval timing.latency timing.timeout) s out.old result out.new }
{
    let held = state::holds(s, profile);
    if let Err(refusal) = questions::about_events(profile, held, out.len()) {
        return refusal.told(s);
    }
    let r = notices::peer_update(s, handle, timing);
    telling::heard(s, r, out)
}

// A central starts encryption.
pub fn wegrulsta_request_key(
    profile: ControllerRow,
    s: Controller,
    handle: u16,
    random: &[u8; 8],
    ediv: u16,
    out: &mut [u8],
) -> Told
    ensures { Tells profile (call.request_ltk handle random.now ediv) s out.old result out.new }
{
    let held = state::holds(s, profile);
    if let Err(refusal) = questions::about_events(profile, held, out.len()) {
        return refusal.told(s);
    }
    let r = notices::request_ltk(s, handle, *random, ediv);
    telling::heard(s, r, out)
}
