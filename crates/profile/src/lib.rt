// The profile that a controller is handed with each call: what it reports about itself and how it answers each opcode
// (`ControllerRow` and `Answering` of the source; the rows are three slices that the caller lends). For the controller's
// calls, whose questions 1 and 2 are asked here. Contracts cite `specs/Profile.antt`.
#![tactic(auto)]

ghost use Rattle.std.specs.Prelude.{◌≡◌};
ghost use Rattle.profile.specs.Profile.{within_limits};

mod rows;

pub use rows::{Rows, row_bitmap};

// What the controller reports about itself, and how large its buffers and lists are.
#[repr(C)]
#[derive(Clone, Copy)]
pub struct ControllerRow {
    pub hci_version: u8,
    pub hci_subversion: u16,
    pub lmp_version: u8,
    pub company: u16,
    pub lmp_subversion: u16,
    pub supported_commands: [u8; 64],
    pub lmp_features: [u8; 8],
    pub le_features: u64,
    pub supported_states: [u8; 8],
    pub acl_len: u16,
    pub acl_count: u8,
    pub accept_list_size: u8,
    pub resolving_list_size: u8,
    pub adv_tx_power: i8,
    pub tx_power_min: i8,
    pub tx_power_max: i8,
    pub max_tx_octets: u16,
    pub max_tx_time: u16,
    pub max_adv_data_len: u16,
    pub adv_sets: u8,
    pub num_command_packets: u8,
}

// Question 1: is the profile within document 01's limits?
#[tactic(auto, unfolding(crate::specs::Profile::within_limits))]
pub fn within_limits(profile: ControllerRow) -> bool
    ensures { result ≡ within_limits profile }
{
    (27..=1019).contains(&profile.acl_len)
        && (1..=32).contains(&profile.acl_count)
        && profile.accept_list_size <= 32
        && profile.resolving_list_size <= 16
}

// How a row answers its opcode.
#[derive(Clone, Copy)]
pub enum Answering {
    Modeled,
    Unmodeled,
    Unknown,
}
