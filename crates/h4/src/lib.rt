// The H4 transport (Core Vol 4 Part A): how long the packet at the front of some octets is, and a stream of octets
// framed into whole packets over a buffer that the caller lends. For hosts and links that exchange packets as a stream
// of octets. Contracts cite `specs/`.
#![tactic(auto)]

ghost use Rattle.std.specs.Prelude.{◌≡◌, take};
ghost use Rattle.h4.specs.Framing.{packet_length, framed, packet_at};
ghost use Rattle.h4.specs.Stream.{Feeds, stream_error};

// Packet indicators (Core Vol 4 Part A section 2). Numbers and no enum: they are octets of packets, matched where they stand.
pub const H4_COMMAND: u8 = 0x01;

pub const H4_ACL: u8 = 0x02;

pub const H4_SCO: u8 = 0x03;

pub const H4_EVENT: u8 = 0x04;

pub const H4_ISO: u8 = 0x05;

// The longest packet: the length fields of ACL and ISO data are 16 bits wide.
pub const H4_MAX_PACKET: usize = 5 + 0xFFFF;

// A packet indicator that is not defined: framing is lost there.
#[derive(Clone, Copy)]
pub struct UndefinedIndicator(pub u8);

// Why a stream does not cut octets into packets: an indicator that is not defined, or a buffer that has no room for them.
#[derive(Clone, Copy)]
pub enum StreamError {
    Undefined(u8),
    NoRoom,
}

impl From<UndefinedIndicator> for StreamError {
    ghost from_gives = { λ indicator error. error ≡ stream_error indicator };

    fn from(indicator: UndefinedIndicator) -> StreamError {
        StreamError::Undefined(indicator.0)
    }
}

// How many octets the packet at the front takes, its indicator counted; None where there are too few octets to tell.
#[tactic(auto, unfolding(crate::specs::Framing::packet_length, crate::specs::Framing::by_indicator))]
pub fn h4_packet_len(bytes: &[u8]) -> Result<Option<usize>, UndefinedIndicator>
    ensures { result ≡ packet_length bytes.now }
{
    let n = match bytes {
        [] => return Ok(None),
        [H4_COMMAND | H4_SCO, rest @ ..] => match rest {
            [_, _, length, ..] => 4 + usize::from(*length),
            _ => return Ok(None),
        },
        [H4_EVENT, rest @ ..] => match rest {
            [_, length, ..] => 3 + usize::from(*length),
            _ => return Ok(None),
        },
        [H4_ACL, rest @ ..] => match rest {
            [_, _, low, high, ..] => 5 + usize::from(u16::from_le_bytes([*low, *high])),
            _ => return Ok(None),
        },
        [H4_ISO, rest @ ..] => match rest {
            [_, _, low, high, ..] => 5 + usize::from(u16::from_le_bytes([*low, *high]) % 16384),
            _ => return Ok(None),
        },
        [other, ..] => return Err(UndefinedIndicator(*other)),
    };
    Ok(Some(n))
}

// Frames octets from their front: how many of them are whole packets. The step is a packet's length, so it is no `for`.
fn frame(bytes: &[u8]) -> Result<usize, UndefinedIndicator>
    ensures { result ≡ framed bytes.now }
{
    let mut at = 0;
    while let Some(n) = h4_packet_len(&bytes[at..])?
        && n <= bytes.len() - at
    {
        at += n;
    }
    Ok(at)
}

// A stream over a buffer that the caller lends to each call: the first `ready` octets of the buffer are the packets of the
// last feed, the next `held` octets wait for the rest of their packet.
#[repr(C)]
#[derive(Clone, Copy, Default)]
pub struct H4Stream {
    pub ready: usize,
    pub held: usize,
}

impl H4Stream {
    pub fn new() -> H4Stream
        ensures { (result.ready ≡ 0) × (result.held ≡ 0) }
    {
        H4Stream::default()
    }

    // How many octets wait.
    pub fn buffered(self) -> usize
        ensures { result ≡ self.held }
    {
        self.held
    }

    // Appends bytes to the octets that wait, which move to the front of the buffer over the packets handed out before, and
    // frames them. The answer is how many octets at the front of the buffer are whole packets, end to end and oldest first. Where
    // an indicator is not defined, all octets wait; where the buffer has no room for them, nothing has changed.
    pub fn feed(&mut self, buffer: &mut [u8], bytes: &[u8]) -> Result<usize, StreamError>
        ensures { Feeds self.old buffer.old bytes.now result self.new buffer.new }
    {
        let H4Stream { ready, held } = *self;
        let room = buffer.len();
        if room < ready || room - ready < held || room - held < bytes.len() {
            return Err(StreamError::NoRoom);
        }
        let at = octets::move_to_front(buffer, ready, held);
        let end = octets::put_lent(buffer, at, bytes);
        *self = H4Stream {
            ready: 0,
            held: end,
        };
        self.ready = frame(&buffer[..end])?;
        self.held -= self.ready;
        Ok(self.ready)
    }

    // Hands out the packet of the last feed that starts at index at, as a part of the buffer: empty where there is none.
    #[tactic(auto, using(crate::proofs::Handing::packet_lent))]
    pub fn packet_at(self, buffer: &[u8], at: usize) -> &[u8]
        ensures { result.now ≡ packet_at (take self.ready buffer.now) at }
    {
        let end = self.ready.min(buffer.len());
        if end <= at {
            return &buffer[..0];
        }
        front_packet(&buffer[at..end])
    }
}

// The packet at the front where all of it is there, else nothing.
#[tactic(auto, unfolding(crate::specs::Framing::whole))]
fn front_packet(bytes: &[u8]) -> &[u8]
    ensures { result.now ≡ packet_at bytes.now 0 }
{
    match h4_packet_len(bytes) {
        Ok(Some(n)) if n <= bytes.len() => &bytes[..n],
        _ => &bytes[..0],
    }
}
