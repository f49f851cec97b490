// What a packet from the host is, read as a command or as ACL data.
ghost use Rattle.std.specs.Prelude.{◌≡◌};
ghost use Rattle.hci.specs.Read.{parse_command, parse_acl, acl_data};

use h4::{H4_ACL, H4_COMMAND};

// A command packet: its opcode, and how many parameter octets follow the first four. Not the slice of them: a value that holds a
// reference is not equal to one of octets, so `parse` would promise a relation in place of the definition's value.
#[derive(Clone, Copy)]
pub struct Command {
    pub opcode: u16,
    pub len: u8,
}

// Why a packet is not read: too short for its header, another kind of packet, or shorter than its length field says.
#[derive(Clone, Copy)]
pub enum ReadError {
    ShortHeader,
    OtherKind,
    ShortBody,
}

impl Command {
    // Reads a packet as a command; octets past its length are ignored.
    #[tactic(auto, unfolding(crate::specs::Read::parse_command))]
    pub fn parse(h4: &[u8]) -> Result<Command, ReadError>
        ensures { result ≡ parse_command h4.now }
    {
        let [kind, low, high, len, parameters @ ..] = h4 else {
            return Err(ReadError::ShortHeader);
        };
        if *kind != H4_COMMAND {
            return Err(ReadError::OtherKind);
        }
        if parameters.len() < usize::from(*len) {
            return Err(ReadError::ShortBody);
        }
        Ok(Command {
            opcode: u16::from_le_bytes([*low, *high]),
            len: *len,
        })
    }
}

// An ACL data packet: the handle in the low 12 bits of its first word, the packet boundary flag in bits 12 and 13, the broadcast
// flag in bits 14 and 15, and how many octets of data follow the first five. The flags are numbers: each may be any of four.
#[derive(Clone, Copy)]
pub struct Acl {
    pub handle: u16,
    pub boundary: u8,
    pub broadcast: u8,
    pub len: u16,
}

impl Acl {
    // Reads a packet as ACL data; octets past its length are ignored.
    #[tactic(auto, unfolding(crate::specs::Read::parse_acl))]
    pub fn parse(h4: &[u8]) -> Result<Acl, ReadError>
        ensures { result ≡ parse_acl h4.now }
    {
        let [kind, low, high, len_low, len_high, data @ ..] = h4 else {
            return Err(ReadError::ShortHeader);
        };
        if *kind != H4_ACL {
            return Err(ReadError::OtherKind);
        }
        let len = u16::from_le_bytes([*len_low, *len_high]);
        if data.len() < usize::from(len) {
            return Err(ReadError::ShortBody);
        }
        Ok(Acl {
            handle: u16::from_le_bytes([*low, *high]) % 4096,
            boundary: *high / 16 % 4,
            broadcast: *high / 64,
            len,
        })
    }
}

// The data of an ACL packet as a part of the packet; empty where the packet is not read.
#[tactic(auto, unfolding(crate::specs::Read::parse_acl))]
pub fn acl_data(h4: &[u8]) -> &[u8]
    ensures { result.now ≡ acl_data h4.now }
{
    match Acl::parse(h4) {
        Ok(acl) => {
            let end = 5 + usize::from(acl.len);
            &h4[5..end]
        }
        Err(_) => &h4[..0],
    }
}
