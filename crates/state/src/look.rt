// What the commands ask of the state before they change it.
ghost use Rattle.std.specs.Prelude.{◌≡◌, ℕ, ◌<◌, List, ◌==◌};
ghost use Rattle.hci.specs.Bits.{bit_of};
ghost use Rattle.state.specs.State.{busy as is_busy};
ghost use Rattle.state.specs.State.{view, advertising_of, accept_list_in_use};
ghost use Rattle.state.specs.State.{advertiser_filters, scanner_filters, initiator_filters};

use crate::{Advertising, Controller, Masks, Scanning};
use hci::mask;

// Whether the link layer is busy: advertising, scanning or initiating.
pub fn busy(s: Controller) -> bool
    ensures { (size : ℕ) (pool : List ℕ) → result ≡ is_busy (view s size pool) }
{
    s.advertising.enabled != 0 || s.scanning.enable[0] != 0 || s.scanning.initiating != 0
}

// Whether the accept list is in use, so that it may not change.
pub fn accept_list_in_use(s: Controller) -> bool
    ensures { (size : ℕ) (pool : List ℕ) → result ≡ accept_list_in_use (view s size pool) }
{
    advertiser_filters(s.advertising)
        || scanner_filters(s.scanning)
        || initiator_filters(s.scanning)
}

fn advertiser_filters(advertising: Advertising) -> bool
    ensures { result ≡ advertiser_filters (advertising_of advertising) }
{
    advertising.enabled != 0 && advertising.params[14] != 0
}

fn scanner_filters(scanning: Scanning) -> bool
    ensures { result ≡ scanner_filters scanning }
{
    scanning.enable[0] != 0 && scanning.params[6] != 0
}

fn initiator_filters(scanning: Scanning) -> bool
    ensures { result ≡ initiator_filters scanning }
{
    scanning.initiating != 0 && scanning.initiator_filter != 0
}

// Whether a mask has a bit. Bits are constants of `hci::mask` or a subevent's code less one: a type of their own is no plainer.
// Nor is one function for this and `hci::mask_has`, which answers a Result, since it refuses a bit from 64 on; nor for the tests
// of two features, of a set of PHYs (u8) and of a map of octets: each is a line.
fn has_bit(mask: u64, bit: u32) -> bool
    requires { bit < 64 }
    ensures { result ≡ (bit_of mask bit == 1) }
{
    (mask >> bit) % 2 == 1
}

impl Masks {
    ghost use Rattle.std.specs.Prelude.{◌≡◌, ◌<◌, ◌≤◌, ◌==◌};
    ghost use Rattle.hci.specs.Bits.{bit_of};
    ghost use Rattle.state.specs.State.{le_event_enabled};

    // Whether Event_Mask has this bit, one of `hci::mask`.
    pub fn enables(self, bit: u32) -> bool
        requires { bit < 64 }
        ensures { result ≡ (bit_of self.event bit == 1) }
    {
        has_bit(self.event, bit)
    }

    // Whether Event_Mask_Page_2 has it.
    pub fn enables_page2(self, bit: u32) -> bool
        requires { bit < 64 }
        ensures { result ≡ (bit_of self.event_page2 bit == 1) }
    {
        has_bit(self.event_page2, bit)
    }

    // Whether the host has enabled an LE Meta subevent, whose bit is its code less one.
    pub fn enables_le(self, subevent: u8) -> bool
        requires { (1 ≤ subevent) × (subevent ≤ 64) }
        ensures { result ≡ le_event_enabled self subevent }
    {
        self.enables(mask::LE_META) && has_bit(self.le_event, u32::from(subevent - 1))
    }
}
