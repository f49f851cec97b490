// The commands of resolvable private addresses: the controller makes none, and keeps what the host sets.
ghost use Rattle.commands.specs.Put.{put_settings};
ghost use Rattle.commands.specs.Outcome.{Answers, done};
ghost use Rattle.commands.specs.Refused.{YieldsAny};
ghost use Rattle.commands.specs.Privacy.{read_resolvable_address, set_address_resolution, set_address_timeout};

use answers::Answer;
use commands::ErrorCode;
use hci::status::UNKNOWN_CONNECTION;
use state::{Controller, Settings};

// LE Read Peer and Local Resolvable Address (sections 7.8.42 and 7.8.43).
#[tactic(auto, unfolding(commands::specs::Privacy::read_resolvable_address))]
pub fn read_resolvable_address() -> Answer
    ensures { Answers read_resolvable_address result }
{
    answers::complete(&[UNKNOWN_CONNECTION, 0, 0, 0, 0, 0, 0])
}

// LE Set Address Resolution Enable (section 7.8.44).
#[tactic(auto, unfolding(commands::specs::Privacy::set_address_resolution))]
pub fn set_address_resolution(s: Controller, p: &[u8; 1]) -> Result<Settings, ErrorCode>
    ensures { YieldsAny done (set_address_resolution p.now) put_settings s.settings s result }
{
    let mut settings = s.settings;
    let [enable] = *p;
    if enable > 1 {
        return Err(ErrorCode::InvalidParameters);
    }
    if state::busy(s) {
        return Err(ErrorCode::CommandDisallowed);
    }
    settings.address_resolution = enable;
    Ok(settings)
}

// LE Set Resolvable Private Address Timeout (section 7.8.45): 1 s to 1 hour.
#[tactic(auto, unfolding(commands::specs::Privacy::set_address_timeout))]
pub fn set_address_timeout(s: Controller, p: &[u8; 2]) -> Result<Settings, ErrorCode>
    ensures { YieldsAny done (set_address_timeout p.now) put_settings s.settings s result }
{
    let mut settings = s.settings;
    let timeout = octets::word_at(p, 0);
    if !(0x0001..=0x0E10).contains(&timeout) {
        return Err(ErrorCode::InvalidParameters);
    }
    settings.rpa_timeout = timeout;
    Ok(settings)
}
