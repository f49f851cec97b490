// The commands of link control, of the controller and baseband, and of the informational and status parameters (Core Vol 4 Part
// E sections 7.1, 7.3, 7.4 and 7.5): the source's `known` before it goes on to the LE commands. For the crate `dispatch`, which
// picks one by its opcode. Contracts cite the definitions of `commands`, `specs/Known.antt`.
#![tactic(auto)]

mod baseband;
mod information;
mod link_control;

pub use baseband::{
    host_buffer_size, host_completed_packets, read_auth_payload_timeout, read_transmit_power,
    reset, set_event_mask, set_event_mask_page2, set_host_flow_control, write_auth_payload_timeout,
};
pub use information::{
    read_local_version, read_public_address, read_rssi, read_supported_commands,
    read_supported_features,
};
pub use link_control::{disconnect, read_remote_version};
