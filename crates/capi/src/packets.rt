// HCI packets and masks (Core Vol 4 Part E): writers, readers, bits. A writer asks questions 8 and 9, `wegrulsta_mask_has` 10.
// Answers are structs of numbers, since no enum crosses to C.
ghost use Rattle.std.specs.Prelude.{◌≡◌, min, length};
ghost use Rattle.hci.specs.Packet as packet;
ghost use Rattle.hci.specs.Write as write;
ghost use Rattle.hci.specs.Opcode.{opcode_of, is_async};
ghost use Rattle.hci.specs.Bits as bits;
ghost use Rattle.hci.specs.Bits.{with_bit};
ghost use Rattle.hci.specs.Read.{parse_command, parse_acl};
ghost use Rattle.capi.specs.Packets.{Writes, WritesEvent, HasBit, kind_of, command_of, acl_of};

use hci::{Acl, Command, MaskError, ReadError, WriteError};

// What a writer answers: 0, 8 or 9, and how many octets it wrote to the front of the buffer.
#[repr(C)]
#[derive(Clone, Copy)]
pub struct Wrote {
    pub number: u8,
    pub written: usize,
}

// Whether a mask has a bit; false where the number is 10.
#[repr(C)]
#[derive(Clone, Copy)]
pub struct MaskHas {
    pub number: u8,
    pub has: bool,
}

// What a packet is, read as a command or as ACL data: whole, too short for its header, another kind, or shorter than its length
// field says. The other fields of an answer are 0 unless it is whole.
pub const WHOLE: u8 = 0;

pub const SHORT_HEADER: u8 = 1;

pub const ANOTHER_KIND: u8 = 2;

pub const SHORT_BODY: u8 = 3;

// The parameters are the len octets from the fifth.
#[repr(C)]
#[derive(Clone, Copy)]
pub struct ReadCommand {
    pub kind: u8,
    pub len: u8,
    pub opcode: u16,
}

// The data are the len octets from the sixth. The flags are bits 12 and 13 of the packet's word, and bits 14 and 15.
#[repr(C)]
#[derive(Clone, Copy)]
pub struct ReadAcl {
    pub kind: u8,
    pub boundary: u8,
    pub broadcast: u8,
    pub handle: u16,
    pub len: u16,
}

// A writer's answer as C gets it.
impl From<Result<usize, WriteError>> for Wrote {
    ghost from_gives = { λ answer r. (r.number ≡ write.number answer) × (r.written ≡ write.count answer) };

    fn from(answer: Result<usize, WriteError>) -> Wrote {
        Wrote {
            number: hci::number_of(answer),
            written: answer.unwrap_or(0),
        }
    }
}

// An event.
pub fn wegrulsta_write_event(code: u8, params: &[u8], out: &mut [u8]) -> Wrote
    ensures { WritesEvent code params.now out.old result out.new }
{
    hci::event(code, params, out).into()
}

// An ACL data packet: the handle's low 12 bits, the boundary flag above them, broadcast flag 0.
pub fn wegrulsta_write_acl(handle: u16, boundary: u8, load: &[u8], out: &mut [u8]) -> Wrote
    ensures { Writes (length load.now) 65535 (packet.acl handle boundary load.now)
        out.old result out.new }
{
    hci::acl(handle, boundary, load, out).into()
}

// Command Complete.
pub fn wegrulsta_write_command_complete(
    num: u8,
    op: u16,
    return_params: &[u8],
    out: &mut [u8],
) -> Wrote
    ensures { WritesEvent 0x0E (packet.complete_params num op return_params.now) out.old result out.new }
{
    hci::command_complete(num, op, return_params, out).into()
}

// Command Status.
pub fn wegrulsta_write_command_status(num: u8, status: u8, op: u16, out: &mut [u8]) -> Wrote
    ensures { WritesEvent 0x0F (packet.status_params num status op) out.old result out.new }
{
    hci::command_status(num, status, op, out).into()
}

// Number Of Completed Packets, of pairs of a handle and a count; where one slice is longer, what it has more is no pair.
pub fn wegrulsta_write_completed_packets(handles: &[u16], counts: &[u16], out: &mut [u8]) -> Wrote
    ensures { Writes (min (length handles.now) (length counts.now)) 63
        (packet.event 0x13 (packet.completed_params handles.now counts.now))
        out.old result out.new }
{
    hci::number_of_completed_packets(handles, counts, out).into()
}

// An LE Meta event.
pub fn wegrulsta_write_le_meta(subevent: u8, params: &[u8], out: &mut [u8]) -> Wrote
    ensures { WritesEvent 0x3E (packet.meta_params subevent params.now) out.old result out.new }
{
    hci::le_meta(subevent, params, out).into()
}

// Why a packet is not read, as C gets it. No `From`: neither type is of this crate, and `hci` has no numbers for it.
fn kind_of(e: ReadError) -> u8
    ensures { result ≡ kind_of e }
{
    match e {
        ReadError::ShortHeader => SHORT_HEADER,
        ReadError::OtherKind => ANOTHER_KIND,
        ReadError::ShortBody => SHORT_BODY,
    }
}

// What a packet read as a command is, as C gets it.
impl From<Result<Command, ReadError>> for ReadCommand {
    ghost from_gives = { λ answer r. r ≡ command_of answer };

    fn from(answer: Result<Command, ReadError>) -> ReadCommand {
        let c = answer.unwrap_or(Command { opcode: 0, len: 0 });
        ReadCommand {
            kind: answer.err().map_or(WHOLE, kind_of),
            len: c.len,
            opcode: c.opcode,
        }
    }
}

// Reads a packet as a command; octets past its length are ignored.
pub fn wegrulsta_read_command(packet: &[u8]) -> ReadCommand
    ensures { result ≡ command_of (parse_command packet.now) }
{
    Command::parse(packet).into()
}

// What a packet read as ACL data is, as C gets it.
impl From<Result<Acl, ReadError>> for ReadAcl {
    ghost from_gives = { λ answer r. r ≡ acl_of answer };

    fn from(answer: Result<Acl, ReadError>) -> ReadAcl {
        let c = answer.unwrap_or(Acl {
            handle: 0,
            boundary: 0,
            broadcast: 0,
            len: 0,
        });
        ReadAcl {
            kind: answer.err().map_or(WHOLE, kind_of),
            boundary: c.boundary,
            broadcast: c.broadcast,
            handle: c.handle,
            len: c.len,
        }
    }
}

// Reads a packet as ACL data; octets past its length are ignored.
pub fn wegrulsta_read_acl(packet: &[u8]) -> ReadAcl
    ensures { result ≡ acl_of (parse_acl packet.now) }
{
    Acl::parse(packet).into()
}

// The opcode of a group and a command in it.
pub fn wegrulsta_opcode(ogf: u16, ocf: u16) -> u16
    ensures { result ≡ opcode_of ogf ocf }
{
    hci::opcode(ogf, ocf)
}

// Whether Command Status acknowledges a command.
pub fn wegrulsta_is_async(op: u16) -> bool
    ensures { result ≡ is_async op }
{
    hci::is_async(op)
}

// What `mask_has` answers, as C gets it.
impl From<Result<bool, MaskError>> for MaskHas {
    ghost from_gives = { λ answer r. (r.number ≡ bits.number answer) × (r.has ≡ bits.says answer) };

    fn from(answer: Result<bool, MaskError>) -> MaskHas {
        MaskHas {
            number: hci::number_of(answer),
            has: answer.unwrap_or(false),
        }
    }
}

// Whether a mask has a bit.
pub fn wegrulsta_mask_has(mask: u64, bit: u32) -> MaskHas
    ensures { HasBit mask bit result }
{
    hci::mask_has(mask, bit).into()
}

// Sets a bit of the map; past its end nothing changes.
pub fn wegrulsta_set_bit(map: &mut [u8], bit: usize)
    ensures { map.new ≡ with_bit map.old bit }
{
    hci::set_bit(map, bit);
}
