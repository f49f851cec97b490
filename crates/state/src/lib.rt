// The state of one controller, by value: the source's `Controller` in groups, lists as arrays beside their counts, flags and
// kinds as numbers, since C hands it in and any octets are a state. For the controller's commands and notices. Contracts cite
// `specs/State.antt`.
#![tactic(auto)]

mod history;
mod hold;
mod legacy;
mod look;
mod start;

use filters::{AcceptList, ResolvingList};
pub use history::remember;
pub use hold::{holds, places};
use links::Links;
pub use look::{accept_list_in_use, busy};
pub use start::{default_state, reset};

// Which events the host has enabled (Core Vol 4 Part E sections 7.3.1, 7.3.69 and 7.8.1).
#[repr(C)]
#[derive(Clone, Copy)]
pub struct Masks {
    pub event: u64,
    pub event_page2: u64,
    pub le_event: u64,
}

// What the host has set that no link and no list holds.
#[repr(C)]
#[derive(Clone, Copy)]
pub struct Settings {
    // Least significant octet first.
    pub random_address: [u8; 6],
    // 0 is no, any other octet yes.
    pub address_resolution: u8,
    // Seconds.
    pub rpa_timeout: u16,
    pub suggested_data_length: [u16; 2],
    pub default_phy: [u8; 3],
    pub host_flow_control: u8,
    // The advertising family issued since power-on or reset (section 3.1.1): 0, LEGACY or EXTENDED.
    pub advertising_family: u8,
    // The Direct Test Mode test in progress: 0, RECEIVER_TEST or TRANSMITTER_TEST.
    pub test: u8,
    // In 0.1 dB, as sent (sections 7.8.75 and 7.8.76).
    pub rf_path_compensation: [u16; 2],
}

pub const LEGACY: u8 = 1;

pub const EXTENDED: u8 = 2;

pub const RECEIVER_TEST: u8 = 1;

pub const TRANSMITTER_TEST: u8 = 2;

// The legacy advertising state (sections 7.8.5 to 7.8.9).
#[repr(C)]
#[derive(Clone, Copy)]
pub struct Advertising {
    // The parameters of the last Set Advertising Parameters that was accepted.
    pub params: [u8; 15],
    pub data: [u8; 31],
    pub data_len: u8,
    pub scan_response: [u8; 31],
    pub scan_response_len: u8,
    // 0 is no, any other octet yes.
    pub enabled: u8,
}

#[derive(Clone, Copy)]
pub struct Interval {
    pub least: u16,
    pub greatest: u16,
}

// Scanning and initiating (sections 7.8.10 to 7.8.13).
#[repr(C)]
#[derive(Clone, Copy)]
pub struct Scanning {
    pub params: [u8; 7],
    pub enable: [u8; 2],
    // 0 is no, any other octet yes.
    pub initiating: u8,
    pub initiator_filter: u8,
}

// Counters that a reset keeps.
#[repr(C)]
#[derive(Clone, Copy)]
pub struct Counters {
    pub commands: u64,
    pub unknown_commands: u64,
    pub acl_packets: u64,
    pub acl_dropped: u64,
}

// The last answers, oldest first: opcode, low octet first, and status, three octets each.
#[repr(C)]
#[derive(Clone, Copy)]
pub struct Recent {
    pub octets: [u8; 96],
    pub count: usize,
}

#[repr(C)]
#[derive(Clone, Copy)]
pub struct Controller {
    pub masks: Masks,
    pub settings: Settings,
    pub advertising: Advertising,
    pub scanning: Scanning,
    pub accept_list: AcceptList,
    pub resolving_list: ResolvingList,
    pub links: Links,
    pub counters: Counters,
    pub recent: Recent,
}
