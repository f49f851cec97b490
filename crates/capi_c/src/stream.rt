// A stream of packets over a buffer that C keeps.
ghost use Rattle.std.specs.Prelude.{◌≡◌, length, take};
ghost use Rattle.h4.specs.Framing.{packet_length, packet_at};
ghost use Rattle.capi.specs.Framing.{length_of, Feeds};

use capi::{PacketLength, StreamFed};
use h4::H4Stream;

// How many octets the packet at the front takes, its indicator counted.
#[unsafe(no_mangle)]
pub extern "C" fn wegrulsta_packet_length(bytes: &[u8]) -> PacketLength
    ensures { result ≡ length_of (packet_length bytes.now) }
{
    capi::wegrulsta_packet_length(bytes)
}

// A stream to which nothing was fed.
#[unsafe(no_mangle)]
pub extern "C" fn wegrulsta_stream_start() -> H4Stream
    ensures { (result.ready ≡ 0) × (result.held ≡ 0) }
{
    capi::wegrulsta_stream_start()
}

// Appends bytes to the octets that wait, at the front of the buffer, and frames them.
#[unsafe(no_mangle)]
pub extern "C" fn wegrulsta_stream_feed(
    stream: H4Stream,
    buffer: &mut [u8],
    bytes: &[u8],
) -> StreamFed
    ensures { Feeds stream buffer.old bytes.now result buffer.new }
{
    capi::wegrulsta_stream_feed(stream, buffer, bytes)
}

// The octets of the packet of the last feed that starts at index at of the buffer, 0 where there is none.
#[unsafe(no_mangle)]
pub extern "C" fn wegrulsta_stream_packet(stream: H4Stream, buffer: &[u8], at: usize) -> usize
    ensures { result ≡ length (packet_at (take stream.ready buffer.now) at) }
{
    capi::wegrulsta_stream_packet(stream, buffer, at)
}
