// Changing the links: a link opened, a link ended with its queue, packets in flight settled.
ghost use Rattle.std.specs.Prelude.{◌≡◌, true, List, [], ◌∷◌, ◌++◌, ℕ, ◌-◌, ◌≤◌, ◌<◌, length};
ghost use Rattle.std.specs.Fn.{FnReturnsAt};
ghost use Rattle.lists.specs.Lists.{keep};
ghost use Rattle.links.specs.Links.{CountsFit, opened, waiting_of, view, can_open, new_connection, ended, opened_last, settled};
ghost use Rattle.links.specs.Change.{ListsOf, KeptBy, other_than, away_from};

use crate::{Connection, Links, Timing};

// Moves the items that pass to the front, in order, and gives how many they are. By index, since it reads and writes one array.
fn keep_passing<T: Copy, F: Fn(&T) -> bool>(items: &mut [T], passes: F) -> usize
    requires { F.IsAlwaysCallable passes }
    ensures { KeptBy (FnReturnsAt F.Fn passes) items.old result items.new }
{
    let mut kept = 0;
    for i in 0..items.len() {
        let item = items[i];
        if passes(&item) {
            items[kept] = item;
            kept += 1;
        }
    }
    kept
}

// The links without the connection of this handle. The array is filtered as a local: of a field lent in part the proof did not
// close. One form with `discard_waiting` would be handed the field and its count by closures, which is longer than both.
fn close_handle(mut links: Links, handle: u16) -> Links
    requires { CountsFit links }
    ensures { ListsOf result (keep (other_than handle) (opened links)) (waiting_of links) links.in_flight }
{
    let n = links.count;
    let mut connections = links.connections;
    links.count = keep_passing(&mut connections[..n], |c| c.handle != handle);
    links.connections = connections;
    links
}

// The links without the packets that wait for this handle.
fn discard_waiting(mut links: Links, handle: u16) -> Links
    requires { CountsFit links }
    ensures { ListsOf result (opened links) (keep (away_from handle) (waiting_of links)) links.in_flight }
{
    let n = links.waiting_count;
    let mut waiting = links.waiting;
    links.waiting_count = keep_passing(&mut waiting[..n], |w| w.handle != handle);
    links.waiting = waiting;
    links
}

// The end of a link: its connection and its queue go, what is in flight stays in use.
#[tactic(auto, using(crate::proofs::Changing::ended_lists, crate::proofs::Changing::ended_view))]
pub fn end_connection(links: Links, handle: u16) -> Links
    requires { CountsFit links }
    ensures viewed { (size : ℕ) (pool : List ℕ) → view result size pool ≡ ended handle (view links size pool) }
    ensures lists { ListsOf result (keep (other_than handle) (opened links)) (keep (away_from handle) (waiting_of links))
        links.in_flight }
{
    let closed = close_handle(links, handle);
    discard_waiting(closed, handle)
}

// The links with one connection more, which stands last.
fn push_connection(mut links: Links, c: Connection) -> Links
    requires { (links.count < 16) × (links.waiting_count ≤ 32) }
    ensures { ListsOf result (opened links ++ (c ∷ [])) (waiting_of links) links.in_flight }
{
    links.connections[links.count] = c;
    links.count += 1;
    links
}

// The links with the handle opened last. A link with the handle ends first, and its queue with it.
#[tactic(auto, using(crate::proofs::Changing::opened_view))]
pub fn open_connection(links: Links, handle: u16, timing: Timing) -> Links
    requires { CountsFit links × (can_open handle (opened links) ≡ true) }
    ensures viewed { (size : ℕ) (pool : List ℕ) → view result size pool
        ≡ opened_last (new_connection handle timing.interval timing.latency timing.timeout) (view links size pool) }
    ensures lists { ListsOf result
        (keep (other_than handle) (opened links) ++ (new_connection handle timing.interval timing.latency timing.timeout ∷ []))
        (keep (away_from handle) (waiting_of links)) links.in_flight }
{
    let rest = end_connection(links, handle);
    push_connection(
        rest,
        Connection {
            handle,
            interval: timing.interval,
            latency: timing.latency,
            timeout: timing.timeout,
            tx_octets: 27,
            tx_time: 328,
            auth_payload_timeout: 3000,
            tx_phy: 1,
            rx_phy: 1,
            terminating: 0,
            ltk_requested: 0,
        },
    )
}

// Packets of the air are reported or gone with their link: that many are in flight no more, never below zero.
#[tactic(auto, unfolding(crate::specs::Links::settled))]
pub fn settle(mut links: Links, count: u16) -> Links
    requires { CountsFit links }
    ensures viewed { (size : ℕ) (pool : List ℕ) → view result size pool ≡ settled count (view links size pool) }
    ensures lists { ListsOf result (opened links) (waiting_of links) (links.in_flight - count) }
{
    links.in_flight = links.in_flight.saturating_sub(count);
    links
}
