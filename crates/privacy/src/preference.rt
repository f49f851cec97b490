// A host's preference for PHYs: whether it names none, or one that the controller lacks, and the PHY that a link takes by it.
// A set of PHYs has LE 1M as bit 0, LE 2M as bit 1 and LE Coded as bit 2; a link's PHY is a number.
ghost use Rattle.std.specs.Prelude.{◌≡◌, true, false, not, MatchOption};
ghost use Rattle.commands.specs.Privacy.{all_supported, phy_preference_empty, phy_preference_unsupported, phy_picked};
ghost use Rattle.commands.specs.Privacy.{any_sending, any_receiving};

use profile::ControllerRow;

// Numbers and no enum: they go as they are into an octet of the state, which C reads too, and into the event.
const LE_1M: u8 = 1;

const LE_2M: u8 = 2;

const LE_CODED: u8 = 3;

// A host's preference: All_PHYs, and a set for each direction. The octets as the host sends them and the settings keep them: two
// options would lose the reserved bits, which are tested.
#[derive(Clone, Copy)]
pub struct Preference {
    pub all: u8,
    pub tx: u8,
    pub rx: u8,
}

impl Preference {
    // What the host prefers for sending: None where All_PHYs has bit 0, which says that it prefers nothing.
    pub fn sending(self) -> Option<u8>
        ensures { MatchOption result (any_sending self.all ≡ true)
            (λ allowed. (any_sending self.all ≡ false) × (allowed ≡ self.tx)) }
    {
        (self.all % 2 == 0).then_some(self.tx)
    }

    // What it prefers for receiving: None where All_PHYs has bit 1.
    pub fn receiving(self) -> Option<u8>
        ensures { MatchOption result (any_receiving self.all ≡ true)
            (λ allowed. (any_receiving self.all ≡ false) × (allowed ≡ self.rx)) }
    {
        ((self.all >> 1) % 2 == 0).then_some(self.rx)
    }

    // Reserved bits, or a preference for no PHY (section 7.8.48).
    #[tactic(auto, unfolding(commands::specs::Privacy::phy_preference_empty))]
    pub fn is_empty(self) -> bool
        ensures { result ≡ phy_preference_empty self.all self.tx self.rx }
    {
        self.all > 3 || self.sending() == Some(0) || self.receiving() == Some(0)
    }

    // A PHY that the controller lacks, or different PHYs for the two directions (section 7.8.48).
    #[tactic(auto, unfolding(commands::specs::Privacy::phy_preference_unsupported))]
    pub fn is_unsupported(self, profile: ControllerRow) -> bool
        ensures { result ≡ phy_preference_unsupported profile self.all self.tx self.rx }
    {
        names_lacking(profile, self.sending())
            || names_lacking(profile, self.receiving())
            || (self.all == 0 && self.tx != self.rx)
    }
}

// Whether a direction's preference is for a PHY that the controller lacks.
fn names_lacking(profile: ControllerRow, preferred: Option<u8>) -> bool
    ensures { MatchOption preferred (result ≡ false) (λ set. result ≡ not (all_supported profile set)) }
{
    preferred.is_some_and(|set| set & commands::phys(profile) != set)
}

// The PHY that a link takes (section 7.8.49): without a preference the one it has, else LE 2M, LE 1M, LE Coded, in this order.
#[tactic(auto, unfolding(commands::specs::Privacy::phy_picked))]
pub fn pick_phy(profile: ControllerRow, preferred: Option<u8>, current: u8) -> u8
    ensures { MatchOption preferred (result ≡ current) (λ allowed. result ≡ phy_picked profile false allowed current) }
{
    let Some(allowed) = preferred else {
        return current;
    };
    let supported = commands::phys(profile);
    let both = allowed & supported;
    if commands::has_phy(both, LE_2M) {
        return LE_2M;
    }
    if commands::has_phy(both, LE_1M) || both == 0 {
        return LE_1M;
    }
    LE_CODED
}
