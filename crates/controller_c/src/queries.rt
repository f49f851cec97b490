// What a state holds, the bit map of a profile's rows and the state to start with, for C.
ghost use Rattle.links.specs.Links as links;
ghost use Rattle.std.specs.Prelude.{false};
ghost use Rattle.calls.specs.Gives.{Finds, FindsBitmap, Starts};
ghost use Rattle.controller.specs.Answers.{terminating_reason};

use controller::{Bitmap, Connected, FreeHandle, InUse, ReasonTold};
use profile::ControllerRow;
use state::Controller;

// Whether a link has this handle.
#[unsafe(no_mangle)]
pub extern "C" fn wegrulsta_has_connection(
    profile: ControllerRow,
    s: Controller,
    handle: u16,
) -> Connected
    ensures { Finds profile s (λ m. links.has handle m.links.connections) false result.number result.connected }
{
    controller::has_connection(profile, s, handle)
}

// The reason of a Disconnect that waits for the peer, 0 for none: no enum crosses to C.
#[unsafe(no_mangle)]
pub extern "C" fn wegrulsta_terminating(
    profile: ControllerRow,
    s: Controller,
    handle: u16,
) -> ReasonTold
    ensures { Finds profile s (terminating_reason handle) 0 result.number result.reason }
{
    controller::terminating_reason(profile, s, handle)
}

// The lowest handle from 1 that no link has.
#[unsafe(no_mangle)]
pub extern "C" fn wegrulsta_free_handle(profile: ControllerRow, s: Controller) -> FreeHandle
    ensures { Finds profile s (λ m. links.free_handle m.links.connections) 0 result.number result.handle }
{
    controller::free_handle(profile, s)
}

// How many buffers are in use: packets that wait in all links, and those in flight.
#[unsafe(no_mangle)]
pub extern "C" fn wegrulsta_buffers_in_use(profile: ControllerRow, s: Controller) -> InUse
    ensures { Finds profile s (λ m. links.in_use m.links) 0 result.number result.count }
{
    controller::acl_buffers_in_use(profile, s)
}

// The Supported_Commands bit map (Core Vol 4 Part E section 6.27) of the rows that are not unknown. Question 2.
#[unsafe(no_mangle)]
pub extern "C" fn wegrulsta_row_bitmap(opcodes: &[u16], answers: &[u8], bits: &[u16]) -> Bitmap
    ensures { FindsBitmap opcodes.now answers.now bits.now result.number result.map }
{
    controller::row_bitmap(opcodes, answers, bits)
}

// The state that a controller starts with.
#[unsafe(no_mangle)]
pub extern "C" fn wegrulsta_start() -> Controller
    ensures { Starts result }
{
    controller::default_state()
}
