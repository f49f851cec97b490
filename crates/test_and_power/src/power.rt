// Transmit power and RF path compensation (Core Vol 4 Part E sections 7.8.74 to 7.8.76).
ghost use Rattle.std.specs.Prelude.{◌≡◌, ◌+◌, ◌≤◌, length};
ghost use Rattle.octets.specs.Octets.{word};
ghost use Rattle.signed.specs.Signed.{compensation_allowed};
ghost use Rattle.commands.specs.Outcome.{Answers, done};
ghost use Rattle.commands.specs.Refused.{YieldsAny};
ghost use Rattle.commands.specs.Put.{put_settings};
ghost use Rattle.commands.specs.Test.{read_power_range, read_path_compensation, write_path_compensation};

use answers::Answer;
use commands::ErrorCode;
use profile::ControllerRow;
use state::{Controller, Settings};

// LE Read Transmit Power (section 7.8.74): the least and the greatest, in dBm.
#[tactic(auto, unfolding(commands::specs::Test::read_power_range))]
pub fn read_power_range(profile: ControllerRow) -> Answer
    ensures { Answers (read_power_range profile) result }
{
    let least = profile.tx_power_min.cast_unsigned();
    let greatest = profile.tx_power_max.cast_unsigned();
    commands::succeeded(&[least, greatest])
}

// LE Read RF Path Compensation (section 7.8.75): for sending, then for receiving.
#[tactic(auto, unfolding(commands::specs::Test::read_path_compensation))]
pub fn read_path_compensation(settings: Settings) -> Answer
    ensures { Answers (read_path_compensation settings) result }
{
    let words = settings.rf_path_compensation.map(u16::to_le_bytes);
    commands::succeeded(words.as_flattened())
}

// LE Write RF Path Compensation (section 7.8.76): -128.0 dB (0xFB00) to 128.0 dB (0x0500) in 0.1 dB.
#[tactic(auto, unfolding(commands::specs::Test::write_path_compensation))]
pub fn write_path_compensation(s: Controller, p: &[u8; 4]) -> Result<Settings, ErrorCode>
    ensures { YieldsAny done (write_path_compensation p.now) put_settings s.settings s result }
{
    if !(allowed_at(p, 0) && allowed_at(p, 2)) {
        return Err(ErrorCode::InvalidParameters);
    }
    let mut settings = s.settings;
    settings.rf_path_compensation = [octets::word_at(p, 0), octets::word_at(p, 2)];
    Ok(settings)
}

// Whether the two octets at index at, as a signed number, are a path compensation.
fn allowed_at(p: &[u8], at: usize) -> bool
    requires { at + 2 ≤ length p.now }
    ensures { result ≡ compensation_allowed (word p.now at) }
{
    signed::compensation_allowed(signed::signed_word_at(p, at))
}
