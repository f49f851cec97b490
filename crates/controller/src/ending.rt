// The link's notices of a link's end.
ghost use Rattle.calls.specs.Calls as call;
ghost use Rattle.controller.specs.Answers.{Tells};

use crate::{Told, questions, telling};
use profile::ControllerRow;
use state::Controller;

// The peer ended the link, for this reason.
pub fn wegrulsta_remote_disconnect(
    profile: ControllerRow,
    s: Controller,
    handle: u16,
    reason: u8,
    out: &mut [u8],
) -> Told
    ensures { Tells profile (call.remote_disconnect handle reason) s out.old result out.new }
{
    let held = state::holds(s, profile);
    if let Err(refusal) = questions::about_events(profile, held, out.len()) {
        return refusal.told(s);
    }
    let r = notices::remote_disconnect(s, handle, reason);
    telling::heard(s, r, out)
}

// The peer acknowledged the host's Disconnect.
pub fn wegrulsta_complete_disconnect(
    profile: ControllerRow,
    s: Controller,
    handle: u16,
    out: &mut [u8],
) -> Told
    ensures { Tells profile (call.complete_disconnect handle) s out.old result out.new }
{
    let held = state::holds(s, profile);
    if let Err(refusal) = questions::about_events(profile, held, out.len()) {
        return refusal.told(s);
    }
    let r = notices::complete_disconnect(s, handle);
    telling::heard(s, r, out)
}
