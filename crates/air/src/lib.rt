// The first half of `le`: masks and reads, the random address, legacy advertising, scanning, initiating and the accept list
// (Core Vol 4 Part E sections 7.8.1 to 7.8.17). For the crate `dispatch`, which picks one by its opcode. The definitions of these
// commands are `Air.antt` of the crate `commands`.
#![tactic(auto)]

mod accepting;
mod advertising;
mod initiating;
mod reading;
mod scanning;
mod setting;

pub use accepting::{add_to_accept_list, clear_accept_list, remove_from_accept_list};
pub use advertising::{
    set_advertising_data, set_advertising_enable, set_advertising_parameters,
    set_scan_response_data,
};
pub use initiating::{create_connection, create_connection_cancel};
pub use reading::{
    read_accept_list_size, read_advertising_power, read_buffer_size, read_local_features,
};
pub use scanning::{set_scan_enable, set_scan_parameters};
pub use setting::{set_le_event_mask, set_random_address};
