// What the commands share: the answer beside the state, a part of the state put back, answers that return octets, the events that
// follow an answer, the tests of parameters that more than one command makes, and the table of opcodes and lengths. `specs/`
// holds the definitions of all commands; their code is in the crates `known`, `air`, `link`, `privacy` and `test_and_power`. For
// these, and for `command` above them. Their contracts ask that questions 1 and 3 were answered (`Ready`): a type of a
// state and a profile with this fact would be no plainer: twelve functions take both, the others one of them, or a part.
#![tactic(auto)]

mod checks;
mod error;
mod events;
mod parts;
mod returned;
mod table;

pub use checks::{ConnectionParams, has_phy, long_at, phys};
pub use error::ErrorCode;
pub use events::{
    ConnectionComplete, followed_by_connection_complete, followed_by_connection_failed,
    followed_by_encryption_change, followed_by_event, followed_by_le, followed_by_update,
};
pub use parts::{Answered, StatePart};
pub use returned::{about, succeeded};
pub use table::{fits, place_of};
