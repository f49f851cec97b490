// A stream of octets cut into packets (H4, Core Vol 4 Part A): the length of the packet at the front of some octets, and a
// stream over a buffer that the caller lends. An answer's `kind` says which of its other fields tell something; the others
// are 0. It is a number, since no enum crosses to C.
ghost use Rattle.std.specs.Prelude.{◌≡◌, length, take};
ghost use Rattle.h4.specs.Framing.{packet_length, packet_at};
ghost use Rattle.capi.specs.Framing.{length_of, Feeds};

use h4::{H4Stream, StreamError, UndefinedIndicator};

// The kinds: whole packets, too few octets to tell, an indicator that is not defined, and no room in the buffer.
pub const PACKETS: u8 = 0;

pub const MORE: u8 = 1;

pub const UNDEFINED: u8 = 2;

pub const NO_ROOM: u8 = 3;

// PACKETS: the packet at the front has len octets. MORE, or UNDEFINED with the indicator; never NO_ROOM.
#[repr(C)]
#[derive(Clone, Copy)]
pub struct PacketLength {
    pub kind: u8,
    pub indicator: u8,
    pub len: usize,
}

// PACKETS: the first stream.ready octets of the buffer are whole packets. UNDEFINED: framing is lost at the indicator. NO_ROOM:
// nothing has changed.
#[repr(C)]
#[derive(Clone, Copy)]
pub struct StreamFed {
    pub stream: H4Stream,
    pub kind: u8,
    pub indicator: u8,
}

// What the octets at the front say, as C gets it.
impl From<Result<Option<usize>, UndefinedIndicator>> for PacketLength {
    ghost from_gives = { λ answer r. r ≡ length_of answer };

    fn from(answer: Result<Option<usize>, UndefinedIndicator>) -> PacketLength {
        let (kind, indicator, len) = match answer {
            Ok(Some(n)) => (PACKETS, 0, n),
            Ok(None) => (MORE, 0, 0),
            Err(UndefinedIndicator(indicator)) => (UNDEFINED, indicator, 0),
        };
        PacketLength {
            kind,
            indicator,
            len,
        }
    }
}

// How many octets the packet at the front takes, its indicator counted.
pub fn wegrulsta_packet_length(bytes: &[u8]) -> PacketLength
    ensures { result ≡ length_of (packet_length bytes.now) }
{
    h4::h4_packet_len(bytes).into()
}

// A stream to which nothing was fed.
pub fn wegrulsta_stream_start() -> H4Stream
    ensures { (result.ready ≡ 0) × (result.held ≡ 0) }
{
    H4Stream::new()
}

// Appends bytes to the octets that wait, at the front of the buffer, and frames them.
pub fn wegrulsta_stream_feed(mut stream: H4Stream, buffer: &mut [u8], bytes: &[u8]) -> StreamFed
    ensures { Feeds stream buffer.old bytes.now result buffer.new }
{
    let (kind, indicator) = match stream.feed(buffer, bytes) {
        Ok(_) => (PACKETS, 0),
        Err(StreamError::Undefined(indicator)) => (UNDEFINED, indicator),
        Err(StreamError::NoRoom) => (NO_ROOM, 0),
    };
    StreamFed {
        stream,
        kind,
        indicator,
    }
}

// The octets of the packet of the last feed that starts at index at of the buffer, 0 where there is none.
pub fn wegrulsta_stream_packet(stream: H4Stream, buffer: &[u8], at: usize) -> usize
    ensures { result ≡ length (packet_at (take stream.ready buffer.now) at) }
{
    let packet = stream.packet_at(buffer, at);
    packet.len()
}
