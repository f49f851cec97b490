// Legacy scanning: its parameters and whether it is on.
ghost use Rattle.std.specs.Prelude.{◌≡◌, ◌&&◌, leb};
ghost use Rattle.commands.specs.Air.{scan_parameters_valid, set_scan_parameters, set_scan_enable};
ghost use Rattle.commands.specs.Checks.{within};
ghost use Rattle.commands.specs.Outcome.{done};
ghost use Rattle.commands.specs.Refused.{YieldsAny};
ghost use Rattle.commands.specs.Put.{put_scanning};

use commands::ErrorCode;
use state::{Controller, Scanning};

// Scan interval and window 0x0004 to 0x4000, the window at most the interval: the same to scan and to initiate.
pub fn scan_times_valid(interval: u16, window: u16) -> bool
    ensures { result ≡ (within 0x0004 0x4000 interval && (within 0x0004 0x4000 window && leb window interval)) }
{
    (0x0004..=0x4000).contains(&interval)
        && (0x0004..=0x4000).contains(&window)
        && window <= interval
}

#[tactic(auto, unfolding(commands::specs::Air::scan_parameters_valid))]
fn scan_parameters_valid(p: &[u8; 7]) -> bool
    ensures { result ≡ scan_parameters_valid p.now }
{
    p[0] <= 1
        && scan_times_valid(octets::word_at(p, 1), octets::word_at(p, 3))
        && p[5] <= 3
        && p[6] <= 3
}

// LE Set Scan Parameters (section 7.8.10): not while scanning.
#[tactic(auto, unfolding(commands::specs::Air::set_scan_parameters))]
pub fn set_scan_parameters(s: Controller, p: &[u8; 7]) -> Result<Scanning, ErrorCode>
    ensures { YieldsAny done (set_scan_parameters p.now) put_scanning s.scanning s result }
{
    let mut scanning = s.scanning;
    if scanning.enable[0] != 0 {
        return Err(ErrorCode::CommandDisallowed);
    }
    if !scan_parameters_valid(p) {
        return Err(ErrorCode::InvalidParameters);
    }
    scanning.params.copy_from_slice(p);
    Ok(scanning)
}

// LE Set Scan Enable (section 7.8.11).
#[tactic(auto, unfolding(commands::specs::Air::set_scan_enable))]
pub fn set_scan_enable(s: Controller, p: &[u8; 2]) -> Result<Scanning, ErrorCode>
    ensures { YieldsAny done (set_scan_enable p.now) put_scanning s.scanning s result }
{
    let mut scanning = s.scanning;
    if p[0] > 1 || p[1] > 1 {
        return Err(ErrorCode::InvalidParameters);
    }
    scanning.enable.copy_from_slice(p);
    Ok(scanning)
}
