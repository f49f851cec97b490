// The calls of a unit, for Rattle, where they have the source's names, and for `controller_c`, which exports them to firmware by
// the names that they have here (`embed/wegrulsta.h` declares them). Each takes any state, profile, pool and buffer and comes
// back with its answer or with the number of the first question that has the answer "no" (docs/REFUSALS.md), and then nothing
// has changed. The caller keeps the state, hands it in by value and gets it back; events and taken packets are octets at the
// front of a buffer that the caller lends. Contracts cite `calls/specs/Gives.antt`.
//
// A function carries its call out itself, and hands it on to no other here but for the query `terminating`, since each handing on
// may copy the state once more; `controller_c` does it once. A notice puts the new state together before it writes its event, for
// the same reason (docs/SPEED.md).
#![tactic(auto)]

mod changing;
mod counting;
mod ending;
mod opening;
mod packets;
mod queries;
mod questions;
mod refusal;
mod taking;
mod telling;

pub use changing::{wegrulsta_request_key as request_ltk, wegrulsta_update as peer_update};
pub use command::Told;
pub use counting::{wegrulsta_completed as completed, wegrulsta_drop as drop_in_flight};
pub use ending::{
    wegrulsta_complete_disconnect as complete_disconnect,
    wegrulsta_remote_disconnect as remote_disconnect,
};
pub use links::Timing;
pub use opening::{
    wegrulsta_accept as accept_connection, wegrulsta_advertising_timeout as advertising_timeout,
    wegrulsta_open as open_connection,
};
pub use packets::wegrulsta_packet as on_packet;
pub use queries::{
    Bitmap, Connected, FreeHandle, InUse, ReasonTold, terminating,
    wegrulsta_buffers_in_use as acl_buffers_in_use, wegrulsta_free_handle as free_handle,
    wegrulsta_has_connection as has_connection, wegrulsta_row_bitmap as row_bitmap,
    wegrulsta_start as default_state, wegrulsta_terminating as terminating_reason,
};
pub use refusal::Refusal;
use state::Controller;
pub use taking::wegrulsta_take as take_transmit;

// What a call gives that has no buffer: the state after it, and 0 or the number of a refusal. An answer is a struct with a
// number, and no Result, since C gets it by value; in all answers the state stands first, so that it is copied from where it lies
// (docs/SPEED.md).
#[repr(C)]
#[derive(Clone, Copy)]
pub struct Changed {
    pub state: Controller,
    pub number: u8,
}

// What a take gives: the state after it, how many packets were taken, how many octets they have together at the front of the
// buffer, and 0 or the number of a refusal.
#[repr(C)]
#[derive(Clone, Copy)]
pub struct Took {
    pub state: Controller,
    pub count: usize,
    pub written: usize,
    pub number: u8,
}
