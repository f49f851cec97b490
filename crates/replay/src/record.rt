// The records of a run: each asks for a call of the controller or for a look at it, and gets an answer. For run.rt.
//
// A record is its kind, how many octets follow (2), and those. Numbers stand low octet first:
//     0  a packet from the host: the packet, any number of octets
//     1  take packets for the air: handle (2), how many at most (2)
//     2  a link opened: handle (2), interval (2), latency (2), timeout (2)
//     3  packets were completed: handle (2), how many (2)
//     4  packets in flight are gone with their link: how many (2)
//     5  a central's request to connect was accepted: handle (2), whether the peer's address is random (0 no, any other yes),
//        that address (6), interval (2), latency (2), timeout (2), clock accuracy
//     6  the central applied a connection update: handle (2), interval (2), latency (2), timeout (2)
//     7  a central starts encryption: handle (2), random number (8), diversifier (2)
//     8  the peer acknowledged the host's Disconnect: handle (2)
//     9  the peer ended the link: handle (2), reason
//    10  high duty cycle directed advertising ended unanswered: nothing
//    11  show the whole state: nothing
//    12  ask the four queries: handle (2)
// What is not whole, is of no kind or has another number of octets than its kind is no record and ends the run. So does a record
// for whose answer fewer than 40,960 octets of room are left, however short the answer would be.
//
// The answer to kinds 0 to 10: the number of the refusal or 0, how many packets were taken, how many octets of events or taken
// packets there are (2), and those.
// The answer to kind 11: how many octets the state has (2), and those, as dump.rt says.
// The answer to kind 12: whether a link has the handle (0 or 1), whether a Disconnect of it waits for the peer (0 or 1), the
// reason of that or 0, the lowest free handle (2), and how many buffers are in use (2).
use crate::reader::Reader;
use links::Timing;

#[derive(Clone, Copy)]
pub enum Record<'a> {
    Packet(&'a [u8]),
    Take { handle: u16, most: u16 },
    Notice(Notice),
    Show,
    Find { handle: u16 },
}

// A central's request to connect.
#[derive(Clone, Copy)]
pub struct Request {
    pub handle: u16,
    pub peer_type: u8,
    pub peer: [u8; 6],
    pub timing: Timing,
    pub accuracy: u8,
}

// What the air side tells the controller.
#[derive(Clone, Copy)]
pub enum Notice {
    Opened {
        handle: u16,
        timing: Timing,
    },
    Completed {
        handle: u16,
        count: u16,
    },
    Gone {
        count: u16,
    },
    Accepted(Request),
    Updated {
        handle: u16,
        timing: Timing,
    },
    KeyRequested {
        handle: u16,
        random: [u8; 8],
        diversifier: u16,
    },
    Acknowledged {
        handle: u16,
    },
    Ended {
        handle: u16,
        reason: u8,
    },
    AdvertisingEnded,
}

impl<'a> Record<'a> {
    // The record at the front of what is left to be read.
    pub fn read(reader: &mut Reader<'a>) -> Option<Record<'a>> {
        let kind = reader.octet()?;
        let count = usize::from(reader.word()?);
        let mut body = Reader::new(reader.slice(count)?);
        let record = match kind {
            0 => Record::Packet(body.slice(count)?),
            1 => Record::Take {
                handle: body.word()?,
                most: body.word()?,
            },
            11 => Record::Show,
            12 => Record::Find {
                handle: body.word()?,
            },
            _ => Record::Notice(notice_of(kind, &mut body)?),
        };
        body.rest().is_empty().then_some(record)
    }
}

// The notice of this kind, from the octets behind its length.
fn notice_of(kind: u8, body: &mut Reader<'_>) -> Option<Notice> {
    let notice = match kind {
        2 => Notice::Opened {
            handle: body.word()?,
            timing: timing_of(body)?,
        },
        3 => Notice::Completed {
            handle: body.word()?,
            count: body.word()?,
        },
        4 => Notice::Gone {
            count: body.word()?,
        },
        5 => Notice::Accepted(Request {
            handle: body.word()?,
            peer_type: body.octet()?,
            peer: body.octets()?,
            timing: timing_of(body)?,
            accuracy: body.octet()?,
        }),
        6 => Notice::Updated {
            handle: body.word()?,
            timing: timing_of(body)?,
        },
        7 => Notice::KeyRequested {
            handle: body.word()?,
            random: body.octets()?,
            diversifier: body.word()?,
        },
        8 => Notice::Acknowledged {
            handle: body.word()?,
        },
        9 => Notice::Ended {
            handle: body.word()?,
            reason: body.octet()?,
        },
        10 => Notice::AdvertisingEnded,
        _ => return None,
    };
    Some(notice)
}

fn timing_of(body: &mut Reader<'_>) -> Option<Timing> {
    Some(Timing {
        interval: body.word()?,
        latency: body.word()?,
        timeout: body.word()?,
    })
}
