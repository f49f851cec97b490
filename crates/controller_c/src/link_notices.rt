// What the link tells the controller, for C, which hands in a link's three parameters one by one.
ghost use Rattle.calls.specs.Calls as call;
ghost use Rattle.controller.specs.Answers.{Tells, Changes, is_random};

use controller::{Changed, Told};
use links::Timing;
use profile::ControllerRow;
use state::Controller;

// A link opened. Question 6: is the handle present, or one of sixteen places free?
#[unsafe(no_mangle)]
pub extern "C" fn wegrulsta_open(
    profile: ControllerRow,
    s: Controller,
    handle: u16,
    interval: u16,
    latency: u16,
    timeout: u16,
) -> Changed
    ensures { Changes profile (call.open_connection handle interval latency timeout) s result }
{
    let timing = Timing {
        interval,
        latency,
        timeout,
    };
    controller::open_connection(profile, s, handle, timing)
}

// A central's request to connect was accepted, from an address that is public where its type is 0. Questions 5 and 6.
#[unsafe(no_mangle)]
pub extern "C" fn wegrulsta_accept(
    profile: ControllerRow,
    s: Controller,
    handle: u16,
    peer_type: u8,
    peer: &[u8; 6],
    interval: u16,
    latency: u16,
    timeout: u16,
    sca: u8,
    out: &mut [u8],
) -> Told
    ensures { Tells profile (call.accept_connection handle (is_random peer_type) peer.now interval latency timeout sca)
        s out.old result out.new }
{
    let timing = Timing {
        interval,
        latency,
        timeout,
    };
    controller::accept_connection(profile, s, handle, peer_type, peer, timing, sca, out)
}

// High duty cycle directed advertising ended unanswered.
#[unsafe(no_mangle)]
pub extern "C" fn wegrulsta_advertising_timeout(
    profile: ControllerRow,
    s: Controller,
    out: &mut [u8],
) -> Told
    ensures { Tells profile (call.advertising_timeout) s out.old result out.new }
{
    controller::advertising_timeout(profile, s, out)
}

// The central applied a connection update.
#[unsafe(no_mangle)]
pub extern "C" fn wegrulsta_update(
    profile: ControllerRow,
    s: Controller,
    handle: u16,
    interval: u16,
    latency: u16,
    timeout: u16,
    out: &mut [u8],
) -> Told
    ensures { Tells profile (call.peer_update handle interval latency timeout) s out.old result out.new }
{
    let timing = Timing {
        interval,
        latency,
        timeout,
    };
    controller::peer_update(profile, s, handle, timing, out)
}

// A central starts encryption.
#[unsafe(no_mangle)]
pub extern "C" fn wegrulsta_request_key(
    profile: ControllerRow,
    s: Controller,
    handle: u16,
    random: &[u8; 8],
    ediv: u16,
    out: &mut [u8],
) -> Told
    ensures { Tells profile (call.request_ltk handle random.now ediv) s out.old result out.new }
{
    controller::request_ltk(profile, s, handle, random, ediv, out)
}

// So many packets of a link were completed.
#[unsafe(no_mangle)]
pub extern "C" fn wegrulsta_completed(
    profile: ControllerRow,
    s: Controller,
    handle: u16,
    count: u16,
    out: &mut [u8],
) -> Told
    ensures { Tells profile (call.completed handle count) s out.old result out.new }
{
    controller::completed(profile, s, handle, count, out)
}

// So many packets in flight are gone with their link; the host is told nothing.
#[unsafe(no_mangle)]
pub extern "C" fn wegrulsta_drop(profile: ControllerRow, s: Controller, count: u16) -> Changed
    ensures { Changes profile (call.drop_in_flight count) s result }
{
    controller::drop_in_flight(profile, s, count)
}

// The peer ended the link, for this reason.
#[unsafe(no_mangle)]
pub extern "C" fn wegrulsta_remote_disconnect(
    profile: ControllerRow,
    s: Controller,
    handle: u16,
    reason: u8,
    out: &mut [u8],
) -> Told
    ensures { Tells profile (call.remote_disconnect handle reason) s out.old result out.new }
{
    controller::remote_disconnect(profile, s, handle, reason, out)
}

// The peer acknowledged the host's Disconnect.
#[unsafe(no_mangle)]
pub extern "C" fn wegrulsta_complete_disconnect(
    profile: ControllerRow,
    s: Controller,
    handle: u16,
    out: &mut [u8],
) -> Told
    ensures { Tells profile (call.complete_disconnect handle) s out.old result out.new }
{
    controller::complete_disconnect(profile, s, handle, out)
}
