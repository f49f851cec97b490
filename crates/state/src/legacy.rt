// The legacy advertising state: what its parameters say, and other data in it.
ghost use Rattle.std.specs.Prelude.{◌≡◌, ◌≤◌, length};
ghost use Rattle.octets.specs.Octets.{octet, word};
ghost use Rattle.state.specs.Holding.{AdvertisingHolds};
ghost use Rattle.state.specs.State.{advertising_of, with_data, with_scan_response};

use crate::{Advertising, Interval};

impl Advertising {
    // The least and the greatest interval, in 0.625 ms units.
    pub fn interval(self) -> Interval
        ensures { (result.least ≡ word self.params 0) × (result.greatest ≡ word self.params 2) }
    {
        Interval {
            least: octets::word_at(&self.params, 0),
            greatest: octets::word_at(&self.params, 2),
        }
    }

    // The advertising type.
    pub fn kind(self) -> u8
        ensures { result ≡ octet self.params 4 }
    {
        self.params[4]
    }

    pub fn own_address_type(self) -> u8
        ensures { result ≡ octet self.params 5 }
    {
        self.params[5]
    }

    // The same with other advertising data (section 7.8.7). The length by `as`: it is at most 31, and `try_from` would want a
    // branch that no run takes.
    #[tactic(auto, using(octets::proofs::Writing::put_front))]
    pub fn with_data(mut self, load: &[u8]) -> Advertising
        requires { length load.now ≤ 31 }
        ensures { (advertising_of result ≡ with_data load.now (advertising_of self))
            × (AdvertisingHolds self → AdvertisingHolds result) }
    {
        self.data_len = octets::put(&mut self.data, 0, load) as u8;
        self
    }

    // The same with another scan response (section 7.8.8). C's header names both pairs of fields, so they are no type of
    // their own.
    #[tactic(auto, using(octets::proofs::Writing::put_front))]
    pub fn with_scan_response(mut self, load: &[u8]) -> Advertising
        requires { length load.now ≤ 31 }
        ensures { (advertising_of result ≡ with_scan_response load.now (advertising_of self))
            × (AdvertisingHolds self → AdvertisingHolds result) }
    {
        self.scan_response_len = octets::put(&mut self.scan_response, 0, load) as u8;
        self
    }
}
