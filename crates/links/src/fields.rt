// Changing one connection: each function sets some fields of the connection of a handle. An unknown handle changes nothing.
// What they share is `change`; a setter each stays, since each is its own promise to the commands.
#![tactic(auto, using(crate::proofs::Changing::changed_view))]

ghost use Rattle.links.specs.Links.{CountsFit};
ghost use Rattle.links.specs.Change.{Changes, ChangesBy};
ghost use Rattle.links.specs.Fields.{with_parameters, with_data_length, with_phys, with_terminating};
ghost use Rattle.links.specs.Fields.{with_ltk_requested, with_auth_payload_timeout};

use crate::{Connection, Links, Timing, look};

// The links with the connection of this handle changed by a closure.
fn change<F: FnOnce(Connection) -> Connection>(links: Links, handle: u16, f: F) -> Links
    requires counts { CountsFit links }
    requires callable { F.IsAlwaysCallable f }
    ensures { ChangesBy (F.post f) handle links result }
{
    let Some(at) = look::find_connection(links, handle) else {
        return links;
    };
    let mut out = links;
    out.connections[at] = f(out.connections[at]);
    out
}

// Interval, latency and timeout of a link.
pub fn set_parameters(links: Links, handle: u16, timing: Timing) -> Links
    requires { CountsFit links }
    ensures { Changes handle (with_parameters timing.interval timing.latency timing.timeout) links result }
{
    change(
        links,
        handle,
        |c| Connection {
            interval: timing.interval,
            latency: timing.latency,
            timeout: timing.timeout,
            ..c
        },
    )
}

// The longest data packets that a link sends, in octets and in time.
pub fn set_data_length(links: Links, handle: u16, tx_octets: u16, tx_time: u16) -> Links
    requires { CountsFit links }
    ensures { Changes handle (with_data_length tx_octets tx_time) links result }
{
    change(
        links,
        handle,
        |c| Connection {
            tx_octets,
            tx_time,
            ..c
        },
    )
}

// The PHYs of a link.
pub fn set_phys(links: Links, handle: u16, tx_phy: u8, rx_phy: u8) -> Links
    requires { CountsFit links }
    ensures { Changes handle (with_phys tx_phy rx_phy) links result }
{
    change(
        links,
        handle,
        |c| Connection {
            tx_phy,
            rx_phy,
            ..c
        },
    )
}

// Whether a request for a link's long term key awaits the host's reply. An octet, since a bool would ask more of callers.
pub fn set_ltk_requested(links: Links, handle: u16, requested: u8) -> Links
    requires { CountsFit links }
    ensures { Changes handle (with_ltk_requested requested) links result }
{
    change(
        links,
        handle,
        |c| Connection {
            ltk_requested: requested,
            ..c
        },
    )
}

// The authenticated payload timeout of a link.
pub fn set_auth_payload_timeout(links: Links, handle: u16, timeout: u16) -> Links
    requires { CountsFit links }
    ensures { Changes handle (with_auth_payload_timeout timeout) links result }
{
    change(
        links,
        handle,
        |c| Connection {
            auth_payload_timeout: timeout,
            ..c
        },
    )
}

// The reason of a Disconnect that the peer has to acknowledge.
pub fn set_terminating(links: Links, handle: u16, reason: u8) -> Links
    requires { CountsFit links }
    ensures { Changes handle (with_terminating reason) links result }
{
    change(
        links,
        handle,
        |c| Connection {
            terminating: reason,
            ..c
        },
    )
}
