// What the link tells the controller: a link opened, its parameters changed, its key asked for, its packets completed or gone,
// its end, and the end of advertising. Each function gives the links after the notice, which are smaller to hand back than the
// state, or the state where advertising changes too; and the event for the host as an answer without an acknowledgement. For the
// controller's calls, which ask their questions first. Contracts cite `specs/Notices.antt`.
#![tactic(auto)]

mod changing;
mod ending;
mod opening;
mod packets;
mod silent;

pub use changing::{peer_update, request_ltk};
pub use ending::{complete_disconnect, remote_disconnect};
pub use opening::{accept_connection, advertising_timeout, open_connection};
pub use packets::{completed, drop_in_flight};
