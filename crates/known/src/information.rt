// The informational and status parameters (Core Vol 4 Part E sections 7.4 and 7.5): what the controller reports about itself,
// and the RSSI of a link.
ghost use Rattle.std.specs.Prelude.{◌≤◌};
ghost use Rattle.links.specs.Links.{opened};
ghost use Rattle.commands.specs.Outcome.{Answers};
ghost use Rattle.commands.specs.Known as definition;

use answers::Answer;
use hci::status::{SUCCESS, UNKNOWN_CONNECTION};
use links::Links;
use profile::ControllerRow;

// Read Local Version Information (section 7.4.1). Octets stand between its words, here and in Read Remote Version Information:
// the words of an array mapped to octets would be taken apart again.
#[tactic(auto, unfolding(commands::specs::Known::read_local_version))]
pub fn read_local_version(profile: ControllerRow) -> Answer
    ensures { Answers (definition.read_local_version profile) result }
{
    let [hci_low, hci_high] = profile.hci_subversion.to_le_bytes();
    let [company_low, company_high] = profile.company.to_le_bytes();
    let [lmp_low, lmp_high] = profile.lmp_subversion.to_le_bytes();
    commands::succeeded(&[
        profile.hci_version,
        hci_low,
        hci_high,
        profile.lmp_version,
        company_low,
        company_high,
        lmp_low,
        lmp_high,
    ])
}

// Read Local Supported Commands (section 7.4.2): 64 octets, the longest answer.
#[tactic(auto, unfolding(commands::specs::Known::read_supported_commands))]
pub fn read_supported_commands(profile: ControllerRow) -> Answer
    ensures { Answers (definition.read_supported_commands profile) result }
{
    commands::succeeded(&profile.supported_commands)
}

// Read Local Supported Features (section 7.4.3).
#[tactic(auto, unfolding(commands::specs::Known::read_supported_features))]
pub fn read_supported_features(profile: ControllerRow) -> Answer
    ensures { Answers (definition.read_supported_features profile) result }
{
    commands::succeeded(&profile.lmp_features)
}

// Read BD_ADDR (section 7.4.6).
#[tactic(auto, unfolding(commands::specs::Known::read_public_address))]
pub fn read_public_address(address: [u8; 6]) -> Answer
    ensures { Answers (definition.read_public_address address) result }
{
    commands::succeeded(&address)
}

// Read RSSI (section 7.5.4): -40 dBm for every link; 127 is "not available". As with the authenticated payload timeout, one
// function with the other reads of a link is no plainer.
#[tactic(auto, unfolding(commands::specs::Known::read_rssi))]
pub fn read_rssi(p: &[u8; 2], links: Links) -> Answer
    requires { links.count ≤ 16 }
    ensures { Answers (definition.read_rssi p.now (opened links)) result }
{
    let handle = octets::word_at(p, 0);
    if !links::has(links, handle) {
        return commands::about(UNKNOWN_CONNECTION, handle, &[127]);
    }
    commands::about(SUCCESS, handle, &[0xD8])
}
