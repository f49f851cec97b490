// Looking at the links: a connection by its handle, a free handle, whether a link can be opened, buffers in use.
ghost use Rattle.std.specs.Prelude.{◌≡◌, List, ℕ, ◌≤◌, position};
ghost use Rattle.links.specs.Links.{opened, has_handle, free_handle, can_open, in_use, view};
ghost use Rattle.links.specs.Links.{has as has_connection};
ghost use Rattle.links.specs.Look.{connection_of, terminating_of};

use crate::{Connection, Links, hold};

// The place of the connection with this handle.
pub fn find_connection(links: Links, handle: u16) -> Option<usize>
    requires { links.count ≤ 16 }
    ensures { result ≡ position (has_handle handle) (opened links) }
{
    links.opened().iter().position(|c| c.handle == handle)
}

// Whether a connection has this handle.
#[tactic(auto, using(lists::proofs::Search::position_is_some))]
pub fn has(links: Links, handle: u16) -> bool
    requires { links.count ≤ 16 }
    ensures { result ≡ has_connection handle (opened links) }
{
    find_connection(links, handle).is_some()
}

// The connection with this handle.
#[tactic(auto, using(crate::proofs::Looking::connection_nothing, crate::proofs::Looking::connection_found))]
pub fn connection_of(links: Links, handle: u16) -> Option<Connection>
    requires { links.count ≤ 16 }
    ensures { result ≡ connection_of handle (opened links) }
{
    let at = find_connection(links, handle)?;
    Some(links.connections[at])
}

// The reason of a Disconnect of this link that waits for the peer.
pub fn terminating(links: Links, handle: u16) -> Option<u8>
    requires { links.count ≤ 16 }
    ensures { result ≡ terminating_of handle (opened links) }
{
    let c = connection_of(links, handle)?;
    (c.terminating != 0).then_some(c.terminating)
}

// The lowest handle from 1 that no link has (Core Vol 4 Part E section 5.3).
pub fn free_handle(links: Links) -> u16
    requires { links.count ≤ 16 }
    ensures { result ≡ free_handle (opened links) }
{
    let handles = hold::handles_of(&links.connections, links.count);
    for h in 1..0x0EFF {
        if !hold::stands(&handles, u32::from(h)) {
            return h;
        }
    }
    0x0EFF
}

// Question 6: whether the handle is present, or one of the sixteen places is free. Notices that open a link ask for it in their
// contracts: it is a fact of the links and the handle together, so neither's type can carry it.
pub fn can_open(links: Links, handle: u16) -> bool
    requires { links.count ≤ 16 }
    ensures { result ≡ can_open handle (opened links) }
{
    links.count < 16 || has(links, handle)
}

// Buffers in use: packets that wait in all links, and those in flight.
pub fn buffers_in_use(links: Links) -> usize
    requires { links.waiting_count ≤ 32 }
    ensures { (size : ℕ) (pool : List ℕ) → result ≡ in_use (view links size pool) }
{
    links.waiting_count + usize::from(links.in_flight)
}
