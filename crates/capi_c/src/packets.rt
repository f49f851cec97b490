// HCI packets, opcodes and bits, for C.
ghost use Rattle.std.specs.Prelude.{◌≡◌, min, length};
ghost use Rattle.hci.specs.Packet as packet;
ghost use Rattle.hci.specs.Opcode.{opcode_of, is_async};
ghost use Rattle.hci.specs.Bits.{with_bit};
ghost use Rattle.hci.specs.Read.{parse_command, parse_acl};
ghost use Rattle.capi.specs.Packets.{Writes, WritesEvent, HasBit, command_of, acl_of};

use capi::{MaskHas, ReadAcl, ReadCommand, Wrote};

// An event.
#[unsafe(no_mangle)]
pub extern "C" fn wegrulsta_write_event(code: u8, params: &[u8], out: &mut [u8]) -> Wrote
    ensures { WritesEvent code params.now out.old result out.new }
{
    capi::wegrulsta_write_event(code, params, out)
}

// An ACL data packet: the handle's low 12 bits, the boundary flag above them, broadcast flag 0.
#[unsafe(no_mangle)]
pub extern "C" fn wegrulsta_write_acl(
    handle: u16,
    boundary: u8,
    load: &[u8],
    out: &mut [u8],
) -> Wrote
    ensures { Writes (length load.now) 65535 (packet.acl handle boundary load.now)
        out.old result out.new }
{
    capi::wegrulsta_write_acl(handle, boundary, load, out)
}

// Command Complete.
#[unsafe(no_mangle)]
pub extern "C" fn wegrulsta_write_command_complete(
    num: u8,
    op: u16,
    return_params: &[u8],
    out: &mut [u8],
) -> Wrote
    ensures { WritesEvent 0x0E (packet.complete_params num op return_params.now) out.old result out.new }
{
    capi::wegrulsta_write_command_complete(num, op, return_params, out)
}

// Command Status.
#[unsafe(no_mangle)]
pub extern "C" fn wegrulsta_write_command_status(
    num: u8,
    status: u8,
    op: u16,
    out: &mut [u8],
) -> Wrote
    ensures { WritesEvent 0x0F (packet.status_params num status op) out.old result out.new }
{
    capi::wegrulsta_write_command_status(num, status, op, out)
}

// Number Of Completed Packets, of pairs of a handle and a count; where one slice is longer, what it has more is no pair.
#[unsafe(no_mangle)]
pub extern "C" fn wegrulsta_write_completed_packets(
    handles: &[u16],
    counts: &[u16],
    out: &mut [u8],
) -> Wrote
    ensures { Writes (min (length handles.now) (length counts.now)) 63
        (packet.event 0x13 (packet.completed_params handles.now counts.now))
        out.old result out.new }
{
    capi::wegrulsta_write_completed_packets(handles, counts, out)
}

// An LE Meta event.
#[unsafe(no_mangle)]
pub extern "C" fn wegrulsta_write_le_meta(subevent: u8, params: &[u8], out: &mut [u8]) -> Wrote
    ensures { WritesEvent 0x3E (packet.meta_params subevent params.now) out.old result out.new }
{
    capi::wegrulsta_write_le_meta(subevent, params, out)
}

// Reads a packet as a command; octets past its length are ignored.
#[unsafe(no_mangle)]
pub extern "C" fn wegrulsta_read_command(packet: &[u8]) -> ReadCommand
    ensures { result ≡ command_of (parse_command packet.now) }
{
    capi::wegrulsta_read_command(packet)
}

// Reads a packet as ACL data; octets past its length are ignored.
#[unsafe(no_mangle)]
pub extern "C" fn wegrulsta_read_acl(packet: &[u8]) -> ReadAcl
    ensures { result ≡ acl_of (parse_acl packet.now) }
{
    capi::wegrulsta_read_acl(packet)
}

// The opcode of a group and a command in it.
#[unsafe(no_mangle)]
pub extern "C" fn wegrulsta_opcode(ogf: u16, ocf: u16) -> u16
    ensures { result ≡ opcode_of ogf ocf }
{
    capi::wegrulsta_opcode(ogf, ocf)
}

// Whether Command Status acknowledges a command.
#[unsafe(no_mangle)]
pub extern "C" fn wegrulsta_is_async(op: u16) -> bool
    ensures { result ≡ is_async op }
{
    capi::wegrulsta_is_async(op)
}

// Whether a mask has a bit.
#[unsafe(no_mangle)]
pub extern "C" fn wegrulsta_mask_has(mask: u64, bit: u32) -> MaskHas
    ensures { HasBit mask bit result }
{
    capi::wegrulsta_mask_has(mask, bit)
}

// Sets a bit of the map; past its end nothing changes.
#[unsafe(no_mangle)]
pub extern "C" fn wegrulsta_set_bit(map: &mut [u8], bit: usize)
    ensures { map.new ≡ with_bit map.old bit }
{
    capi::wegrulsta_set_bit(map, bit)
}
