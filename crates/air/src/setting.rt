// The LE event mask and the random address.
ghost use Rattle.std.specs.Prelude.{◌≡◌};
ghost use Rattle.octets.specs.Octets.{number_at};
ghost use Rattle.commands.specs.Air.{set_random_address};
ghost use Rattle.commands.specs.Outcome.{done};
ghost use Rattle.commands.specs.Refused.{YieldsAny};
ghost use Rattle.commands.specs.Parts.{with_le_event_mask};
ghost use Rattle.commands.specs.Put.{put_settings};

use commands::ErrorCode;
use state::{Controller, Masks, Settings};

// LE Set Event Mask (section 7.8.1). A function for each mask, as `known` says.
pub fn set_le_event_mask(masks: Masks, p: &[u8; 8]) -> Masks
    ensures { result ≡ with_le_event_mask (number_at 8 p.now 0) masks }
{
    Masks {
        le_event: commands::long_at(p),
        ..masks
    }
}

// LE Set Random Address (section 7.8.4): not while the link layer is busy.
pub fn set_random_address(s: Controller, p: &[u8; 6]) -> Result<Settings, ErrorCode>
    ensures { YieldsAny done (set_random_address p.now) put_settings s.settings s result }
{
    let mut settings = s.settings;
    if state::busy(s) {
        return Err(ErrorCode::CommandDisallowed);
    }
    settings.random_address.copy_from_slice(p);
    Ok(settings)
}
