// Packets in the pool: queueing one for a link, and taking a link's packets for the air. The caller lends the pool, and says how
// many places it has and how many octets each of them holds (`Places` of `links`). For data packets and `take_transmit` of the
// controller. Both give the waiting packets and no more of the links, which the caller puts together: were all of them to go
// through, they would be copied more often (docs/SPEED.md). Contracts cite `specs/Transmit.antt`, those of the steps
// `specs/Steps.antt`.
#![tactic(auto)]

ghost use Rattle.std.specs.Prelude.{◌≡◌, ◌+◌, ◌*◌, ◌≤◌, length};
ghost use Rattle.lists.specs.Lists.{first_at, read_at};
ghost use Rattle.octets.specs.Octets.{Put};
ghost use Rattle.transmit.specs.Transmit.{CanQueue, Queued, PoolFits, Takes};
ghost use Rattle.lists.specs.Held.{held};
ghost use Rattle.transmit.specs.Steps.{CanMark, Marks, is_free, FreePlace, Parts, CanCopy, end_to_end};

use links::{Links, Places, Waiting};
use lists::Held;

// Which of the 32 places the waiting packets own.
#[tactic(auto, using(crate::proofs::Places::owned_none, crate::proofs::Places::marked_below))]
fn owned_places(waiting: &[Waiting]) -> [bool; 32]
    requires { CanMark waiting.now (length waiting.now) }
    ensures { Marks waiting.now result }
{
    let mut owned = [false; 32];
    for w in waiting {
        owned[usize::from(w.place)] = true;
    }
    owned
}

// The lowest place that is not owned, or how many places there are.
fn lowest_free(owned: &[bool]) -> usize
    ensures { result ≡ first_at is_free owned.now }
{
    owned.iter().position(|own| !*own).unwrap_or(owned.len())
}

// A place that none of the waiting packets owns, one of the lowest as many and one more.
fn free_place(waiting: &[Waiting]) -> usize
    requires { CanMark waiting.now (length waiting.now) }
    ensures { FreePlace waiting.now (length waiting.now) result }
{
    let owned = owned_places(waiting);
    lowest_free(&owned[..waiting.len()])
}

// The waiting packets with one more, whose octets are copied to a place that no waiting packet owns.
pub fn enqueue(
    links: Links,
    pool: &mut [u8],
    places: Places,
    handle: u16,
    packet: &[u8],
) -> [Waiting; 32]
    requires { CanQueue links places.size places.count handle pool.old packet.now }
    ensures { Queued links places.size places.count handle packet.now pool.old result pool.new }
{
    let mut waiting = links.waiting;
    let count = links.waiting_count;
    let place = free_place(links.waiting());
    octets::put(pool, place * places.size, packet);
    // By `as`: a packet has at most 1,024 octets and a place is below 32, and `try_from` would want a branch that no run takes.
    waiting[count] = Waiting {
        handle,
        len: packet.len() as u16,
        place: place as u8,
    };
    waiting
}

// What taking gives: the packets that wait on, how many they are and how many are in flight, each as the links have it (of a
// `Held` the caller would take the array and the number again); and how many packets and octets were written.
#[derive(Clone, Copy)]
pub struct Taken {
    pub waiting: [Waiting; 32],
    pub waiting_count: usize,
    pub in_flight: u16,
    pub count: usize,
    pub len: usize,
}

// The packets that wait, parted: those to be taken, how many octets they have together, and those that wait on.
#[derive(Clone, Copy)]
struct Parted {
    taken: Held<Waiting, 32>,
    len: usize,
    left: Held<Waiting, 32>,
}

// The first packets of a link, up to max, and the others, which go into the array that they come from: what it has behind those
// that wait is no packet, and stays.
fn part(waiting: &[Waiting], array: [Waiting; 32], handle: u16, max: usize) -> Parted
    requires { length waiting.now ≤ 32 }
    ensures { Parts waiting.now handle max (held result.taken) result.len (held result.left) }
{
    let mut taken = Held::new();
    let mut len = 0;
    let mut left = Held::over(array);
    for w in waiting {
        if w.handle == handle && taken.len() < max {
            taken.push(*w);
            len += usize::from(w.len);
        } else {
            left.push(*w);
        }
    }
    Parted { taken, len, left }
}

// Copies a packet out of its place of the pool into out from index at, and gives the index after it.
fn copy_one(w: Waiting, pool: &[u8], places: Places, out: &mut [u8], at: usize) -> usize
    requires { (w.place * places.size + w.len ≤ length pool.now) × (at + w.len ≤ length out.old) }
    ensures { Put out.old at (read_at places.size pool.now w.place w.len) result out.new }
{
    let start = usize::from(w.place) * places.size;
    octets::put(out, at, &pool[start..start + usize::from(w.len)])
}

// Copies the packets out of their places to the front of out, end to end.
#[tactic(auto, using(crate::proofs::Octets::copy_none))]
fn copy(packets: &[Waiting], pool: &[u8], places: Places, out: &mut [u8]) -> usize
    requires { CanCopy packets.now (length packets.now) places.size pool.now out.old }
    ensures { Put out.old 0 (end_to_end places.size pool.now packets.now) result out.new }
{
    let mut at: usize = 0;
    for w in packets {
        at = copy_one(*w, pool, places, out, at);
    }
    at
}

// Takes up to max packets of a link, oldest first, copied end to end to the front of out. Where out can't hold them all
// nothing changes, and there is no answer (question 7).
pub fn take(
    links: Links,
    pool: &[u8],
    places: Places,
    handle: u16,
    max: usize,
    out: &mut [u8],
) -> Option<Taken>
    requires { PoolFits links places.size places.count pool.now }
    ensures { Takes links places.size places.count handle max pool.now out.old result out.new }
{
    let Parted { taken, len, left } = part(links.waiting(), links.waiting, handle, max);
    if out.len() < len {
        return None;
    }
    copy(taken.as_slice(), pool, places, out);
    // By `as` where it goes in flight: at most 32 packets wait.
    let count = taken.len();
    Some(Taken {
        waiting: left.into_array(),
        waiting_count: left.len(),
        in_flight: links.in_flight + count as u16,
        count,
        len,
    })
}
