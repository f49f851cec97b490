// A run: its records, which record.rt describes, are answered one after the other from the default state on. For main.rt.
use crate::hex::Hex;
use crate::reader::Reader;
use crate::record::{Notice, Record, Request};
use crate::setup::{Setup, Sizes};
use crate::{LIMIT, dump, front, queries};
use controller::{Changed, Told, Took};
use lists::Held;
use state::Controller;
use std::io;

// No answer has more octets: a run ends where less room is left.
const LONGEST_ANSWER: usize = 40960;

// A unit during a run: what it was set up with, its state and its pool. The rows are three arrays, as the call takes them for C.
#[derive(Drop)]
struct Unit<'a> {
    setup: Setup<'a>,
    sizes: Sizes,
    opcodes: Held<u16, 256>,
    answers: Held<u8, 256>,
    bits: Held<u16, 256>,
    state: Controller,
    pool: &'a mut [u8],
}

// What a call gave: the state after it, the number of the refusal or 0, how many packets were taken, and how many octets stand at
// the front of the buffer. A number, as the calls answer it for C and the sample has it.
#[derive(Clone, Copy)]
struct Reply {
    state: Controller,
    number: u8,
    taken: usize,
    written: usize,
}

// A call that has no buffer takes no packets and tells the host nothing.
impl From<Changed> for Reply {
    fn from(r: Changed) -> Reply {
        Reply {
            state: r.state,
            number: r.number,
            taken: 0,
            written: 0,
        }
    }
}

// A call that tells the host takes no packets.
impl From<Told> for Reply {
    fn from(r: Told) -> Reply {
        Reply {
            state: r.state,
            number: r.number,
            taken: 0,
            written: r.written,
        }
    }
}

impl From<Took> for Reply {
    fn from(r: Took) -> Reply {
        Reply {
            state: r.state,
            number: r.number,
            taken: r.count,
            written: r.written,
        }
    }
}

// Answers the records and prints the answers. A record has three octets at least, so there are no more turns than octets. The
// pool and the buffer are the run's own, so that it finds nothing of an earlier run.
pub fn answer_all(
    rt: &impl Print,
    setup: Setup<'_>,
    sizes: Sizes,
    records: &[u8],
) -> io::Result<()> {
    let mut pool = [0; LIMIT];
    let mut buffer = [0; LIMIT];
    let mut unit = Unit {
        setup,
        sizes,
        opcodes: setup.opcodes(),
        answers: setup.answers(),
        bits: setup.bits(),
        state: controller::default_state(),
        pool: front(&mut pool, sizes.pool),
    };
    let mut reader = Reader::new(records);
    let mut room = sizes.answers;
    for _ in 0..records.len() {
        let Some(record) = Record::read(&mut reader) else {
            break;
        };
        if room < LONGEST_ANSWER {
            break;
        }
        let printed = unit.answer(rt, record, &mut buffer)?;
        room = room.saturating_sub(printed);
    }
    Ok(())
}

// Each is lent a buffer, and lends its front to the call for events or for taken packets.
impl Unit<'_> {
    // Carries out one record and prints its answer, and gives how many octets that has.
    fn answer(
        &mut self,
        rt: &impl Print,
        record: Record<'_>,
        buffer: &mut [u8; LIMIT],
    ) -> io::Result<usize> {
        let profile = self.setup.profile;
        let reply = match record {
            Record::Packet(packet) => self.packet(packet, buffer),
            Record::Take { handle, most } => self.take(handle, most, buffer),
            Record::Notice(notice) => self.notice(notice, buffer),
            Record::Show => {
                let written = dump::put_state(profile, self.state, self.pool, buffer);
                let [low, high, ..] = written.to_le_bytes();
                return print_answer(rt, &[low, high], &buffer[..written.min(LIMIT)]);
            }
            Record::Find { handle } => {
                return print_answer(rt, &queries::found(profile, self.state, handle), &[]);
            }
        };
        self.state = reply.state;
        let [taken, ..] = reply.taken.to_le_bytes();
        let [low, high, ..] = reply.written.to_le_bytes();
        let head = [reply.number, taken, low, high];
        print_answer(rt, &head, &buffer[..reply.written.min(LIMIT)])
    }

    fn packet(&mut self, packet: &[u8], buffer: &mut [u8; LIMIT]) -> Reply {
        // A copy, since the address is lent beside the pool.
        let address = self.setup.address;
        controller::on_packet(
            self.setup.profile,
            self.opcodes.as_slice(),
            self.answers.as_slice(),
            self.bits.as_slice(),
            self.state,
            self.pool,
            &address,
            self.setup.random,
            packet,
            front(buffer, self.sizes.events),
        )
        .into()
    }

    fn take(&self, handle: u16, most: u16, buffer: &mut [u8; LIMIT]) -> Reply {
        controller::take_transmit(
            self.setup.profile,
            self.state,
            self.pool,
            handle,
            usize::from(most),
            front(buffer, self.sizes.packets),
        )
        .into()
    }

    fn accepted(&self, request: Request, events: &mut [u8]) -> Reply {
        controller::accept_connection(
            self.setup.profile,
            self.state,
            request.handle,
            request.peer_type,
            &request.peer,
            request.timing,
            request.accuracy,
            events,
        )
        .into()
    }

    fn notice(&self, notice: Notice, buffer: &mut [u8; LIMIT]) -> Reply {
        let profile = self.setup.profile;
        let s = self.state;
        let events = front(buffer, self.sizes.events);
        match notice {
            Notice::Opened { handle, timing } => {
                controller::open_connection(profile, s, handle, timing).into()
            }
            Notice::Completed { handle, count } => {
                controller::completed(profile, s, handle, count, events).into()
            }
            Notice::Gone { count } => controller::drop_in_flight(profile, s, count).into(),
            Notice::Accepted(request) => self.accepted(request, events),
            Notice::Updated { handle, timing } => {
                controller::peer_update(profile, s, handle, timing, events).into()
            }
            Notice::KeyRequested {
                handle,
                random,
                diversifier,
            } => {
                controller::request_ltk(profile, s, handle, &random, diversifier, events).into()
            }
            Notice::Acknowledged { handle } => {
                controller::complete_disconnect(profile, s, handle, events).into()
            }
            Notice::Ended { handle, reason } => {
                controller::remote_disconnect(profile, s, handle, reason, events).into()
            }
            Notice::AdvertisingEnded => {
                controller::advertising_timeout(profile, s, events).into()
            }
        }
    }
}

// Prints an answer of these two parts, and gives how many octets it has.
fn print_answer(rt: &impl Print, head: &[u8], octets: &[u8]) -> io::Result<usize> {
    print!(rt; "{}{}", Hex(head), Hex(octets))?;
    Ok(head.len() + octets.len())
}
