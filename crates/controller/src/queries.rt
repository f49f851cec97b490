// What a user may ask of a controller, and the state that it starts with. A query that C gets answers false, 0 or a map without
// bits where it is refused; `terminating`, which C does not get, answers the refusal itself.
ghost use Rattle.std.specs.Prelude.{◌≡◌, None, false, IfOk};
ghost use Rattle.std.specs.Result.{result_unwrap_or};
ghost use Rattle.links.specs.Links as links;
ghost use Rattle.links.specs.Look.{terminating_of};
ghost use Rattle.state.specs.Holding.{state_holds, StateHolds};
ghost use Rattle.calls.specs.Gives.{Finds, FindsBitmap, Starts};
ghost use Rattle.controller.specs.Answers.{terminating_reason};
ghost use Rattle.controller.specs.Asked.{refusal_number, about_state};

use crate::questions;
use crate::refusal::{ACCEPTED, Refusal};
use links::Links;
use profile::{ControllerRow, Rows};
use state::Controller;

// What a query finds stands beside a number here and in the structs below, and is no Result: C gets it by value.
#[repr(C)]
#[derive(Clone, Copy)]
pub struct Connected {
    pub number: u8,
    pub connected: bool,
}

// The reason of a Disconnect that waits, 0 where none does, since no reason is 0.
#[repr(C)]
#[derive(Clone, Copy)]
pub struct ReasonTold {
    pub number: u8,
    pub reason: u8,
}

#[repr(C)]
#[derive(Clone, Copy)]
pub struct FreeHandle {
    pub number: u8,
    pub handle: u16,
}

#[repr(C)]
#[derive(Clone, Copy)]
pub struct InUse {
    pub number: u8,
    pub count: usize,
}

#[repr(C)]
#[derive(Clone, Copy)]
pub struct Bitmap {
    pub number: u8,
    pub map: [u8; 64],
}

// Questions 1 and 3, and what is asked of the links. It is inlined, or the compiler would hand the state on (docs/SPEED.md).
#[inline(always)]
fn asked<T: Copy, F: FnOnce(Links) -> T>(
    profile: ControllerRow,
    s: Controller,
    query: F,
) -> Result<T, Refusal>
    requires { StateHolds s profile → F.pre query s.links }
    ensures number { refusal_number result ≡ about_state profile (state_holds s profile) }
    ensures found { IfOk result (F.post query s.links) }
{
    questions::about_state(profile, state::holds(s, profile))?;
    Ok(query(s.links))
}

// Whether a link has this handle.
pub fn wegrulsta_has_connection(profile: ControllerRow, s: Controller, handle: u16) -> Connected
    ensures { Finds profile s (λ m. links.has handle m.links.connections) false result.number result.connected }
{
    let found = asked(profile, s, |links| links::has(links, handle));
    Connected {
        number: hci::number_of(found),
        connected: found.unwrap_or(false),
    }
}

// The reason of the host's Disconnect of this link, while the peer has not acknowledged it.
pub fn terminating(
    profile: ControllerRow,
    s: Controller,
    handle: u16,
) -> Result<Option<u8>, Refusal>
    ensures { Finds profile s (λ m. terminating_of handle m.links.connections) None
        (refusal_number result) (result_unwrap_or result None) }
{
    asked(profile, s, |links| links::terminating(links, handle))
}

// The same for C, to which no enum crosses.
pub fn wegrulsta_terminating(profile: ControllerRow, s: Controller, handle: u16) -> ReasonTold
    ensures { Finds profile s (terminating_reason handle) 0 result.number result.reason }
{
    let found = terminating(profile, s, handle);
    ReasonTold {
        number: hci::number_of(found),
        reason: found.unwrap_or(None).unwrap_or(0),
    }
}

// The lowest handle from 1 that no link has.
pub fn wegrulsta_free_handle(profile: ControllerRow, s: Controller) -> FreeHandle
    ensures { Finds profile s (λ m. links.free_handle m.links.connections) 0 result.number result.handle }
{
    let found = asked(profile, s, |links| links::free_handle(links));
    FreeHandle {
        number: hci::number_of(found),
        handle: found.unwrap_or(0),
    }
}

// How many buffers are in use: packets that wait in all links, and those in flight.
pub fn wegrulsta_buffers_in_use(profile: ControllerRow, s: Controller) -> InUse
    ensures { Finds profile s (λ m. links.in_use m.links) 0 result.number result.count }
{
    let found = asked(profile, s, |links| links::buffers_in_use(links));
    InUse {
        number: hci::number_of(found),
        count: found.unwrap_or(0),
    }
}

// The Supported_Commands bit map (Core Vol 4 Part E section 6.27) of the rows that are not unknown. Question 2.
pub fn wegrulsta_row_bitmap(opcodes: &[u16], answers: &[u8], bits: &[u16]) -> Bitmap
    ensures { FindsBitmap opcodes.now answers.now bits.now result.number result.map }
{
    let Some(rows) = Rows::of(opcodes, answers, bits) else {
        return Bitmap {
            number: Refusal::Rows.into(),
            map: [0; 64],
        };
    };
    let map = profile::row_bitmap(rows.answers, rows.bits);
    Bitmap {
        number: ACCEPTED,
        map,
    }
}

// The state that a controller starts with.
pub fn wegrulsta_start() -> Controller
    ensures { Starts result }
{
    state::default_state()
}
