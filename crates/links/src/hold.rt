// Question 3 about the links, decided exactly. It is asked at every call that takes a state, so the handles are gathered once
// into an array of numbers. Their lowest octets nearly always tell that they differ; otherwise, and to find a packet's handle,
// loops of constant count look through the numbers, none of which leaves early.
ghost use Rattle.std.specs.Prelude.{◌≡◌, true, ◌&&◌, List, ℕ, ◌≤◌, take};
ghost use Rattle.lists.specs.Lists.{any, all, keyed, distinct};
ghost use Rattle.links.specs.declared.Connection.{Connection};
ghost use Rattle.links.specs.Holding.{links_hold, handle_of, place_of};
ghost use Rattle.links.specs.Gather.{Gathers, gathered, times_in, itself, packet_holds};

use crate::{Connection, Links, Places, Waiting};

// The handles of the first n connections. At each later index stands a number that is no handle, another at each. The array and
// n, not a slice of it: what is gathered (specs/Gather) is told of all sixteen places.
#[tactic(auto, unfolding(lists::specs::Lists::all), using(crate::proofs::Gather::gather_start))]
pub fn handles_of(connections: &[Connection; 16], n: usize) -> [u32; 16]
    requires { n ≤ 16 }
    ensures { Gathers n connections.now result }
{
    let mut handles: [u32; 16] = [
        65536, 65537, 65538, 65539, 65540, 65541, 65542, 65543, 65544, 65545, 65546, 65547, 65548,
        65549, 65550, 65551,
    ];
    for (i, c) in connections[..n].iter().enumerate() {
        handles[i] = u32::from(c.handle);
    }
    handles
}

// Whether the number stands among the sixteen.
#[tactic(auto, unfolding(lists::specs::Lists::any))]
pub fn stands(numbers: &[u32; 16], x: u32) -> bool
    ensures { result ≡ any (keyed itself x) numbers.now }
{
    let mut met = false;
    for y in numbers {
        met |= *y == x;
    }
    met
}

// How many times the number stands among the sixteen.
#[tactic(auto, unfolding(lists::specs::Lists::keep))]
fn times(numbers: &[u32; 16], x: u32) -> u32
    ensures { result ≡ times_in x numbers.now }
{
    let mut t = 0;
    for y in numbers {
        t += u32::from(*y == x);
    }
    t
}

// Whether the lowest octets of the first n numbers differ. Handles are given out from 1 on, so nearly always they do, and then
// the handles need not be compared. The octets that have been met are marked.
fn lowest_octets_differ(handles: &[u32; 16], n: usize) -> bool
    requires { n ≤ 16 }
    ensures { result ≡ true → distinct itself (take n handles.now) ≡ true }
{
    let mut met = [false; 256];
    for x in &handles[..n] {
        // By `as`: `usize` has no `From` of a u32.
        let low = (*x % 256) as usize;
        if met[low] {
            return false;
        }
        met[low] = true;
    }
    true
}

// Whether the first n handles differ: their lowest octets do, or each stands once among the sixteen numbers.
fn handles_differ(handles: &[u32; 16], n: usize) -> bool
    requires { n ≤ 16 }
    ensures { (cs : List Connection) → Gathers n cs handles.now → result ≡ distinct handle_of (take n cs) }
{
    lowest_octets_differ(handles, n) || handles[..n].iter().all(|x| times(handles, *x) == 1)
}

// Whether a waiting packet has a place of the pool, a length that the place holds, and a handle among those gathered.
fn packet_holds(w: Waiting, handles: &[u32; 16], places: Places) -> bool
    ensures { (k : ℕ) (cs : List Connection) → handles.now ≡ gathered k cs
        → result ≡ packet_holds places.count places.size (take k cs) w }
{
    usize::from(w.place) < places.count
        && w.len >= 5
        && usize::from(w.len) <= places.size
        && stands(handles, u32::from(w.handle))
}

// Whether the waiting packets hold, and no two own one place. The places that have been met are marked.
fn packets_hold(waiting: &[Waiting], handles: &[u32; 16], places: Places) -> bool
    ensures { (k : ℕ) (cs : List Connection) → handles.now ≡ gathered k cs
        → result ≡ (distinct place_of waiting.now && all (packet_holds places.count places.size (take k cs)) waiting.now) }
{
    let mut met = [false; 256];
    for w in waiting {
        let place = usize::from(w.place);
        if met[place] || !packet_holds(*w, handles, places) {
            return false;
        }
        met[place] = true;
    }
    true
}

// Question 3 about the links, with a pool that has these places.
#[tactic(auto, unfolding(crate::specs::Holding::links_hold), using(crate::proofs::Holding::hold_packets))]
pub fn links_hold(links: Links, places: Places) -> bool
    ensures { result ≡ links_hold links places.count places.size }
{
    if links.count > 16 || links.waiting_count > 32 {
        return false;
    }
    if links.waiting_count + usize::from(links.in_flight) > places.count {
        return false;
    }
    if links.count == 0 {
        return links.waiting_count == 0;
    }
    let handles = handles_of(&links.connections, links.count);
    if !handles_differ(&handles, links.count) {
        return false;
    }
    let waiting = links.waiting();
    waiting.is_empty() || packets_hold(waiting, &handles, places)
}
