// The commands that concern links, encryption and data length: opcodes 0x2013 to 0x2024 (Core Vol 4 Part E sections 7.8.18 to
// 7.8.35). For the crate `dispatch`, which picks one by its opcode. The definitions are in the crate `commands`, specs/Link.antt.
#![tactic(auto)]

mod data_length;
mod encryption;
mod keys;
mod remote;
mod request;
mod update;

pub use data_length::{read_suggested_data_length, set_data_length, write_suggested_data_length};
pub use encryption::{encrypt, rand};
pub use keys::{enable_encryption, long_term_key_negative_reply, long_term_key_reply};
pub use remote::{read_channel_map, read_remote_features};
pub use request::{parameter_request_negative_reply, parameter_request_reply};
pub use update::connection_update;
