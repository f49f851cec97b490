// The link's notices that a link opened, by itself or by a central's request to connect, or that advertising ended without one.
ghost use Rattle.std.specs.Prelude.{◌≡◌};
ghost use Rattle.calls.specs.Calls as call;
ghost use Rattle.controller.specs.Answers.{Tells, Changes, is_random};

use crate::refusal::{ACCEPTED, Refusal};
use crate::{Changed, Told, questions, telling};
use links::Timing;
use profile::ControllerRow;
use state::Controller;

// A link opened. Question 6: is the handle present, or one of sixteen places free?
pub fn wegrulsta_open(profile: ControllerRow, s: Controller, handle: u16, timing: Timing) -> Changed
    ensures { Changes profile (call.open_connection handle timing.interval timing.latency timing.timeout) s result }
{
    let held = state::holds(s, profile);
    if let Err(refusal) = questions::about_state(profile, held) {
        return refusal.changed(s);
    }
    if !links::can_open(s.links, handle) {
        return Refusal::Handle.changed(s);
    }
    let r = notices::open_connection(s, handle, timing);
    let mut t = s;
    t.links = r.part;
    Changed {
        number: ACCEPTED,
        state: t,
    }
}

// A central's request to connect was accepted, from an address that is public where its type is 0. Questions 5 and 6.
pub fn wegrulsta_accept(
    profile: ControllerRow,
    s: Controller,
    handle: u16,
    peer_type: u8,
    peer: &[u8; 6],
    timing: Timing,
    sca: u8,
    out: &mut [u8],
) -> Told
    ensures { Tells profile
        (call.accept_connection handle (is_random peer_type) peer.now timing.interval timing.latency timing.timeout sca)
        s out.old result out.new }
{
    let held = state::holds(s, profile);
    if let Err(refusal) = questions::about_events(profile, held, out.len()) {
        return refusal.told(s);
    }
    if !links::can_open(s.links, handle) {
        return Refusal::Handle.told(s);
    }
    let r = notices::accept_connection(s, handle, peer_type != 0, *peer, timing, sca);
    telling::heard(s, r, out)
}

// High duty cycle directed advertising ended unanswered.
pub fn wegrulsta_advertising_timeout(profile: ControllerRow, s: Controller, out: &mut [u8]) -> Told
    ensures { Tells profile (call.advertising_timeout) s out.old result out.new }
{
    let held = state::holds(s, profile);
    if let Err(refusal) = questions::about_events(profile, held, out.len()) {
        return refusal.told(s);
    }
    let r = notices::advertising_timeout(s);
    telling::heard(s, r, out)
}
