// The controller's links: sixteen connection places beside their count, one queue of the packets that wait in all links, and the
// number of packets in flight. The packets' octets lie in a pool that the caller lends (crate `transmit`). For the controller's
// commands, notices and question 3. Contracts cite `specs/`. C hands the links in, any octets as a state: so they are arrays
// beside counts, and PHYs and a yes or no are octets. Question 3 finds out that the counts fit (`CountsFit`), and contracts ask
// for it: a type that borrowed the links with this fact would be no plainer, since the functions give links back, of which each
// caller would make it anew and show the fact again.
#![tactic(auto)]

ghost use Rattle.std.specs.Prelude.{◌≡◌, ◌≤◌, []};
ghost use Rattle.links.specs.Links.{opened, waiting_of};
ghost use Rattle.links.specs.Change.{ListsOf};

mod change;
mod fields;
mod hold;
mod look;

pub use change::{end_connection, open_connection, settle};
pub use fields::{
    set_auth_payload_timeout, set_data_length, set_ltk_requested, set_parameters, set_phys,
    set_terminating,
};
pub use hold::links_hold;
pub use look::{
    buffers_in_use, can_open, connection_of, find_connection, free_handle, has, terminating,
};

// One link's parameters, as in the source; its queue is the part of `Links::waiting` with its handle.
#[repr(C)]
#[derive(Clone, Copy, Default)]
pub struct Connection {
    pub handle: u16,
    // 1.25 ms units.
    pub interval: u16,
    pub latency: u16,
    // 10 ms units.
    pub timeout: u16,
    pub tx_octets: u16,
    pub tx_time: u16,
    // 10 ms units.
    pub auth_payload_timeout: u16,
    pub tx_phy: u8,
    pub rx_phy: u8,
    // The reason of a Disconnect that the peer has not acknowledged yet; 0 for none, which is no reason a host may give.
    pub terminating: u8,
    // 0 is no, any other octet yes.
    pub ltk_requested: u8,
}

// A waiting packet: its link, the pool place that holds its octets, and how many they are.
#[repr(C)]
#[derive(Clone, Copy, Default)]
pub struct Waiting {
    pub handle: u16,
    pub len: u16,
    pub place: u8,
}

// The places of a pool: how many they are, and how many octets each has. No function gives a place's first octet: it would ask
// that the product fits, which follows from the room that each caller has already.
#[derive(Clone, Copy)]
pub struct Places {
    pub count: usize,
    pub size: usize,
}

#[repr(C)]
#[derive(Clone, Copy)]
pub struct Links {
    pub connections: [Connection; 16],
    pub count: usize,
    // Oldest first, of all links.
    pub waiting: [Waiting; 32],
    pub waiting_count: usize,
    pub in_flight: u16,
}

// The three parameters of a link that a connection update changes: interval in 1.25 ms units, latency, timeout in 10 ms units.
#[derive(Clone, Copy)]
pub struct Timing {
    pub interval: u16,
    pub latency: u16,
    pub timeout: u16,
}

impl Links {
    // No links, nothing waiting, nothing in flight.
    pub fn new() -> Self
        ensures { ListsOf result [] [] 0 }
    {
        Links {
            connections: [Connection::default(); 16],
            count: 0,
            waiting: [Waiting::default(); 32],
            waiting_count: 0,
            in_flight: 0,
        }
    }

    // The connections, in the order in which they were opened.
    pub fn opened(&self) -> &[Connection]
        requires { self.now.count ≤ 16 }
        ensures { result.now ≡ opened self.now }
    {
        &self.connections[..self.count]
    }

    // The packets that wait, of all links, oldest first.
    pub fn waiting(&self) -> &[Waiting]
        requires { self.now.waiting_count ≤ 32 }
        ensures { result.now ≡ waiting_of self.now }
    {
        &self.waiting[..self.waiting_count]
    }
}
