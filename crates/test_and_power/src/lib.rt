// Direct Test Mode, advertising sets and transmit power: the source's `test_and_power`. For the crate `dispatch`, which picks one
// by its opcode. Contracts cite `specs/Test.antt` of the crate `commands`.
#![tactic(auto)]

mod direct_test;
mod power;
mod reports;

pub use direct_test::{
    receiver_test, receiver_test_v2, test_end, transmitter_test, transmitter_test_v2,
};
pub use power::{read_path_compensation, read_power_range, write_path_compensation};
pub use reports::{read_advertising_sets, read_maximum_advertising_length, read_supported_states};
