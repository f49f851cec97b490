// HCI packets (Core Vol 4 Part E): the codes, the readers of what a host sends and the writers of what a controller
// answers. For the controller above, and for hosts and links that meet its packets. Every call is total; its contract
// cites a definition of `specs/` or of the library.
#![tactic(auto)]

ghost use Rattle.std.specs.Prelude.{◌≡◌, ◌==◌, position, MatchResult};
ghost use Rattle.hci.specs.Opcode.{opcode_of, is_async};

mod bits;
mod read;
mod write;

pub use bits::{MaskError, mask_has, set_bit};
pub use h4::{
    H4_ACL, H4_COMMAND, H4_EVENT, H4_ISO, H4_MAX_PACKET, H4_SCO, H4Stream, StreamError,
    UndefinedIndicator, h4_packet_len,
};
pub use read::{Acl, Command, ReadError, acl_data};
pub use write::{
    WriteError, acl, command_complete, command_status, event, le_meta, number_of_completed_packets,
};

// Event codes (Core Vol 4 Part E section 7.7).
pub mod event_code {
    pub const DISCONNECTION_COMPLETE: u8 = 0x05;

    pub const ENCRYPTION_CHANGE: u8 = 0x08;

    pub const READ_REMOTE_VERSION_COMPLETE: u8 = 0x0C;

    pub const COMMAND_COMPLETE: u8 = 0x0E;

    pub const COMMAND_STATUS: u8 = 0x0F;

    pub const NUMBER_OF_COMPLETED_PACKETS: u8 = 0x13;
    // BR/EDR only.
    pub const LINK_KEY_NOTIFICATION: u8 = 0x18;

    pub const LE_META: u8 = 0x3E;

    pub const ENCRYPTION_CHANGE_V2: u8 = 0x59;
}

// LE Meta subevent codes (Core Vol 4 Part E section 7.7.65).
pub mod subevent {
    pub const CONNECTION_COMPLETE: u8 = 0x01;

    pub const CONNECTION_UPDATE_COMPLETE: u8 = 0x03;

    pub const READ_REMOTE_FEATURES_COMPLETE: u8 = 0x04;

    pub const LONG_TERM_KEY_REQUEST: u8 = 0x05;

    pub const DATA_LENGTH_CHANGE: u8 = 0x07;

    pub const ENHANCED_CONNECTION_COMPLETE: u8 = 0x0A;

    pub const PHY_UPDATE_COMPLETE: u8 = 0x0C;

    pub const ENHANCED_CONNECTION_COMPLETE_V2: u8 = 0x29;
}

// Controller error codes (Core Vol 1 Part F section 1.3).
pub mod status {
    pub const SUCCESS: u8 = 0x00;

    pub const UNKNOWN_COMMAND: u8 = 0x01;

    pub const UNKNOWN_CONNECTION: u8 = 0x02;

    pub const MEMORY_CAPACITY_EXCEEDED: u8 = 0x07;

    pub const COMMAND_DISALLOWED: u8 = 0x0C;

    pub const UNSUPPORTED_FEATURE: u8 = 0x11;

    pub const INVALID_PARAMETERS: u8 = 0x12;

    pub const REMOTE_USER_TERMINATED: u8 = 0x13;

    pub const LOCAL_HOST_TERMINATED: u8 = 0x16;

    pub const ADVERTISING_TIMEOUT: u8 = 0x3C;
}

// Bits of the event masks, and the masks a controller starts with.
pub mod mask {
    // Event_Mask (Core Vol 4 Part E section 7.3.1).
    pub const DISCONNECTION_COMPLETE: u32 = 4;

    pub const ENCRYPTION_CHANGE: u32 = 7;

    pub const READ_REMOTE_VERSION_COMPLETE: u32 = 11;

    pub const LE_META: u32 = 61;
    // Event_Mask_Page_2 (section 7.3.69).
    pub const PAGE2_ENCRYPTION_CHANGE_V2: u32 = 25;
    // Bits 0 to 44 (section 7.3.1).
    pub const DEFAULT: u64 = 0x0000_1FFF_FFFF_FFFF;
    // LE_Event_Mask, bits 0 to 4 (section 7.8.1).
    pub const LE_DEFAULT: u64 = 0x1F;
}

// Packet_Boundary_Flag values (Core Vol 4 Part E section 5.4.2): the first part of a packet from the host, a part that
// goes on, and the first part of a packet that may be flushed, which a controller uses towards the host. Numbers and no enum: a
// header has any of four, and C hands one in.
pub const PB_FIRST_NON_FLUSHABLE: u8 = 0b00;

pub const PB_CONTINUING: u8 = 0b01;

pub const PB_FIRST_FLUSHABLE: u8 = 0b10;

// The number of an answer: 0, or that of its error. Inline, or what was found would be copied once more.
#[inline(always)]
pub fn number_of<T: Copy, E: Into<u8>>(answer: Result<T, E>) -> u8
    ensures { MatchResult answer (λ found. result ≡ 0) (λ e. E.converts e result) }
{
    match answer {
        Ok(_) => 0,
        Err(e) => e.into(),
    }
}

// The opcode group of vendor commands.
pub const OGF_VENDOR: u16 = 0x3F;

// The opcode of a group and a command in it (Core Vol 4 Part E section 5.4.1).
pub fn opcode(ogf: u16, ocf: u16) -> u16
    ensures { result ≡ opcode_of ogf ocf }
{
    (ogf % 64 * 1024) | ocf
}

// The commands that are acknowledged with Command Status and report their outcome in a later event (Core Vol 4 Part E
// section 4.4), and 0x0C35, which is not acknowledged where it succeeds (section 7.3.40).
pub const ASYNC_OPCODES: [u16; 52] = [
    0x0401, 0x0405, 0x0406, 0x0409, 0x040A, 0x040F, 0x0411, 0x0413, 0x0415, 0x0417, 0x0419, 0x041B,
    0x041C, 0x041D, 0x041F, 0x0428, 0x0429, 0x042A, 0x043D, 0x043E, 0x043F, 0x0443, 0x0444, 0x0801,
    0x0803, 0x0804, 0x0807, 0x080B, 0x0810, 0x0C35, 0x0C53, 0x0C5F, 0x200D, 0x2013, 0x2016, 0x2019,
    0x2025, 0x2026, 0x2032, 0x2043, 0x2044, 0x205E, 0x2064, 0x2066, 0x2068, 0x2069, 0x206A, 0x206B,
    0x206D, 0x2077, 0x207E, 0x2085,
];

// Whether an opcode is one of these.
#[tactic(auto, using(lists::proofs::Search::any_list_any), unfolding(crate::specs::Opcode::is_async))]
pub fn is_async(op: u16) -> bool
    ensures { result ≡ is_async op }
{
    ASYNC_OPCODES.contains(&op)
}

// The place of the first opcode of a list that is op.
pub fn first_opcode(list: &[u16], op: u16) -> Option<usize>
    ensures { result ≡ position (λ x. x == op) list.now }
{
    list.iter().position(|x| *x == op)
}
