// Direct Test Mode (Core Vol 4 Part E sections 7.8.28 to 7.8.30). No packet is counted: none reaches a receiver that is not
// there.
ghost use Rattle.std.specs.Prelude.{◌≡◌, [], ◌∷◌, ◌≤◌};
ghost use Rattle.state.specs.State.{view};
ghost use Rattle.answers.specs.Answers.{complete};
ghost use Rattle.commands.specs.Outcome.{Ready, done};
ghost use Rattle.commands.specs.Refused.{Yields, YieldsAny};
ghost use Rattle.commands.specs.Put.{put_settings};
ghost use Rattle.commands.specs.Test.{idle as is_idle};
ghost use Rattle.commands.specs.Test.{test_phy, start_test, test_end};
ghost use Rattle.commands.specs.Test.{receiver_test, transmitter_test, receiver_test2, transmitter_test2};

use commands::ErrorCode;
use profile::ControllerRow;
use state::{Controller, Settings};

// The last channel: a test is on one of 0 to 39.
const LAST_CHANNEL: u8 = 0x27;

// Whether a test may start: the link layer is not busy, no test runs, and there is no link. What the pool holds does not matter,
// so the contract names an empty one.
#[tactic(auto, unfolding(commands::specs::Test::idle))]
fn idle(s: Controller) -> bool
    requires { s.links.count ≤ 16 }
    ensures { result ≡ is_idle (view s 0 []) }
{
    !state::busy(s) && s.settings.test == 0 && s.links.count == 0
}

// Whether the controller has the PHY of a test: 1 LE 1M, 2 LE 2M, 3 LE Coded, and for sending 4 LE Coded S=2. `phy` is the host's
// octet: any other number is refused here.
#[tactic(auto, unfolding(commands::specs::Test::test_phy, commands::specs::Checks::phys))]
fn test_phy(profile: ControllerRow, transmit: bool, phy: u8) -> bool
    ensures { result ≡ test_phy profile transmit phy }
{
    let phys = commands::phys(profile);
    match phy {
        1..=3 => commands::has_phy(phys, phy),
        4 => transmit && commands::has_phy(phys, 3),
        _ => false,
    }
}

// Starts a test: what the four commands test, in the order of the source. `allowed` is the test of modulation or payload, which
// each command makes of its own octet. `transmit` is a bool as in the definition: an enum of two variants would only be turned
// back into it in each contract.
#[tactic(auto, unfolding(commands::specs::Test::start_test, commands::specs::Test::idle))]
fn start_test(
    s: Controller,
    profile: ControllerRow,
    transmit: bool,
    channel: u8,
    phy: u8,
    allowed: bool,
) -> Result<Settings, ErrorCode>
    requires { Ready s profile }
    ensures { Yields done (start_test profile transmit channel phy allowed) profile put_settings s.settings s result }
{
    if !idle(s) {
        return Err(ErrorCode::CommandDisallowed);
    }
    if channel > LAST_CHANNEL {
        return Err(ErrorCode::InvalidParameters);
    }
    if !test_phy(profile, transmit, phy) {
        return Err(ErrorCode::UnsupportedFeature);
    }
    if !allowed {
        return Err(ErrorCode::InvalidParameters);
    }
    let mut settings = s.settings;
    settings.test = if transmit {
        state::TRANSMITTER_TEST
    } else {
        state::RECEIVER_TEST
    };
    Ok(settings)
}

// LE Receiver Test v1 (section 7.8.28): LE 1M.
pub fn receiver_test(
    s: Controller,
    profile: ControllerRow,
    p: &[u8; 1],
) -> Result<Settings, ErrorCode>
    requires { Ready s profile }
    ensures { Yields done (receiver_test profile p.now) profile put_settings s.settings s result }
{
    let [channel] = *p;
    start_test(s, profile, false, channel, 1, true)
}

// LE Transmitter Test v1 (section 7.8.29): LE 1M, payload to 7.
pub fn transmitter_test(
    s: Controller,
    profile: ControllerRow,
    p: &[u8; 3],
) -> Result<Settings, ErrorCode>
    requires { Ready s profile }
    ensures { Yields done (transmitter_test profile p.now) profile put_settings s.settings s result }
{
    let [channel, _, payload] = *p;
    start_test(s, profile, true, channel, 1, payload <= 0x07)
}

// LE Receiver Test v2 (section 7.8.28): channel, PHY, modulation index to 1.
pub fn receiver_test_v2(
    s: Controller,
    profile: ControllerRow,
    p: &[u8; 3],
) -> Result<Settings, ErrorCode>
    requires { Ready s profile }
    ensures { Yields done (receiver_test2 profile p.now) profile put_settings s.settings s result }
{
    let [channel, phy, modulation] = *p;
    start_test(s, profile, false, channel, phy, modulation <= 1)
}

// LE Transmitter Test v2 (section 7.8.29): channel, length, payload to 7, PHY.
pub fn transmitter_test_v2(
    s: Controller,
    profile: ControllerRow,
    p: &[u8; 4],
) -> Result<Settings, ErrorCode>
    requires { Ready s profile }
    ensures { Yields done (transmitter_test2 profile p.now) profile put_settings s.settings s result }
{
    let [channel, _, payload, phy] = *p;
    start_test(s, profile, true, channel, phy, payload <= 0x07)
}

// LE Test End (section 7.8.30): answered with the number of packets, two octets of 0.
#[tactic(auto, unfolding(commands::specs::Test::test_end))]
pub fn test_end(s: Controller) -> Result<Settings, ErrorCode>
    ensures { YieldsAny (λ code. complete (code ∷ 0 ∷ 0 ∷ [])) test_end put_settings s.settings s result }
{
    let mut settings = s.settings;
    if settings.test == 0 {
        return Err(ErrorCode::CommandDisallowed);
    }
    settings.test = 0;
    Ok(settings)
}
