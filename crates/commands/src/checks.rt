// Tests of parameters that more than one command makes, and numbers of eight octets.
ghost use Rattle.std.specs.Prelude.{◌≡◌, ◌≤◌, ◌+◌, ◌-◌, ◌*◌, ltb, eqb, length};
ghost use Rattle.hci.specs.Bits.{bit_of};
ghost use Rattle.octets.specs.Octets.{number_at, word};
ghost use Rattle.commands.specs.Checks.{connection_params_valid};
ghost use Rattle.commands.specs.Checks.{phys as phys_of};

use links::Timing;
use profile::ControllerRow;

// The bits of the profile's features that name a PHY (Vol 6 Part B section 4.6).
const LE_2M_FEATURE: u32 = 8;

const LE_CODED_FEATURE: u32 = 11;

// The connection parameters that a host asks for: the least and the greatest interval, the latency and the timeout.
#[derive(Clone, Copy)]
pub struct ConnectionParams {
    pub min: u16,
    pub max: u16,
    pub latency: u16,
    pub timeout: u16,
}

impl ConnectionParams {
    // The four numbers at index at of a command's parameters.
    pub fn read(p: &[u8], at: usize) -> ConnectionParams
        requires { at + 8 ≤ length p.now }
        ensures { (result.min ≡ word p.now at) × (result.max ≡ word p.now (at + 2))
            × (result.latency ≡ word p.now (at + 4)) × (result.timeout ≡ word p.now (at + 6)) }
    {
        ConnectionParams {
            min: octets::word_at(p, at),
            max: octets::word_at(p, at + 2),
            latency: octets::word_at(p, at + 4),
            timeout: octets::word_at(p, at + 6),
        }
    }

    // Whether all are in their ranges (section 7.8.18).
    #[tactic(auto, unfolding(crate::specs::Checks::connection_params_valid))]
    pub fn is_valid(self) -> bool
        ensures { result ≡ connection_params_valid self.min self.max self.latency self.timeout }
    {
        (0x0006..=0x0C80).contains(&self.min)
            && (0x0006..=0x0C80).contains(&self.max)
            && self.min <= self.max
            && self.latency <= 0x01F3
            && (0x000A..=0x0C80).contains(&self.timeout)
            && self.outlasts()
    }

    // Whether the timeout is longer than (1 + latency) * max, strictly.
    fn outlasts(self) -> bool
        ensures { result ≡ ltb ((1 + self.latency) * self.max) (self.timeout * 4) }
    {
        let longest = (1 + u32::from(self.latency)) * u32::from(self.max);
        longest < u32::from(self.timeout) * 4
    }

    // What a link takes: of the intervals the shortest that the host allows.
    pub fn timing(self) -> Timing
        ensures { (result.interval ≡ self.min) × (result.latency ≡ self.latency) × (result.timeout ≡ self.timeout) }
    {
        Timing {
            interval: self.min,
            latency: self.latency,
            timeout: self.timeout,
        }
    }
}

// The PHYs that the profile's features name, as a bit set: octets as the host sends them and the state keeps them, which are
// masked with this one. A type of sets would only be turned back into an octet.
#[tactic(auto, unfolding(crate::specs::Checks::phys))]
pub fn phys(profile: ControllerRow) -> u8
    ensures { result ≡ phys_of profile }
{
    let fast = (profile.le_features >> LE_2M_FEATURE) % 2 == 1;
    let coded = (profile.le_features >> LE_CODED_FEATURE) % 2 == 1;
    1 + 2 * u8::from(fast) + 4 * u8::from(coded)
}

// Whether a set of PHYs has a PHY, which is a number as events, state and host have it: 1 LE 1M, 2 LE 2M, 3 LE Coded.
pub fn has_phy(set: u8, phy: u8) -> bool
    requires { (1 ≤ phy) × (phy ≤ 3) }
    ensures { result ≡ eqb (bit_of set (phy - 1)) 1 }
{
    (set >> (phy - 1)) % 2 == 1
}

// A number of eight octets, low octet first.
pub fn long_at(p: &[u8; 8]) -> u64
    ensures { result ≡ number_at 8 p.now 0 }
{
    u64::from_le_bytes(*p)
}
