// Legacy advertising: its parameters, its data and whether it is on.
ghost use Rattle.std.specs.Prelude.{◌≡◌, ◌≤◌, ◌<◌, ◌&&◌, List, ℕ, eqb, take, drop, replicate, MatchResult};
ghost use Rattle.octets.specs.Octets.{octet};
ghost use Rattle.lists.specs.Lists.{same_list};
ghost use Rattle.state.specs.State.{view};
ghost use Rattle.commands.specs.Air.{advertising_intervals_valid, advertising_parameters_valid, set_advertising_parameters};
ghost use Rattle.commands.specs.Air.{set_advertising_data, set_scan_response_data, set_advertising_enable, no_random_address};
ghost use Rattle.commands.specs.Outcome.{done};
ghost use Rattle.commands.specs.Refused.{YieldsAny};
ghost use Rattle.commands.specs.declared.error.ErrorCode.TheVariants as error;
ghost use Rattle.commands.specs.Put.{put_advertising};

use commands::ErrorCode;
use state::{Advertising, Controller};

// High duty cycle directed advertising (type 1) has no intervals.
#[tactic(auto, unfolding(commands::specs::Air::advertising_intervals_valid))]
fn advertising_intervals_valid(p: &[u8; 15]) -> bool
    ensures { result ≡ advertising_intervals_valid p.now }
{
    let least = octets::word_at(p, 0);
    let greatest = octets::word_at(p, 2);
    p[4] == 1
        || ((0x0020..=0x4000).contains(&least)
            && (0x0020..=0x4000).contains(&greatest)
            && least <= greatest)
}

#[tactic(auto, unfolding(commands::specs::Air::advertising_parameters_valid))]
fn advertising_parameters_valid(p: &[u8; 15]) -> bool
    ensures { result ≡ advertising_parameters_valid p.now }
{
    advertising_intervals_valid(p)
        && p[4] <= 4
        && p[5] <= 3
        && p[6] <= 1
        && (1..=7).contains(&p[13])
        && p[14] <= 3
}

// LE Set Advertising Parameters (section 7.8.5): not while advertising.
#[tactic(auto, unfolding(commands::specs::Air::set_advertising_parameters))]
pub fn set_advertising_parameters(s: Controller, p: &[u8; 15]) -> Result<Advertising, ErrorCode>
    ensures { YieldsAny done (set_advertising_parameters p.now) put_advertising s.advertising s result }
{
    let mut advertising = s.advertising;
    if advertising.enabled != 0 {
        return Err(ErrorCode::CommandDisallowed);
    }
    if !advertising_parameters_valid(p) {
        return Err(ErrorCode::InvalidParameters);
    }
    advertising.params.copy_from_slice(p);
    Ok(advertising)
}

// What advertising data or a scan response is to be: a length, which may be too long, then that many octets and padding.
fn load_of(p: &[u8; 32]) -> Result<&[u8], ErrorCode>
    ensures { MatchResult result
        (λ load. (octet p.now 0 ≤ 31) × (load.now ≡ take (octet p.now 0) (drop 1 p.now)))
        (λ code. (31 < octet p.now 0) × (code ≡ error.InvalidParameters)) }
{
    p[1..]
        .get(..usize::from(p[0]))
        .ok_or(ErrorCode::InvalidParameters)
}

// LE Set Advertising Data (section 7.8.7).
#[tactic(auto, unfolding(commands::specs::Air::set_advertising_data))]
pub fn set_advertising_data(s: Controller, p: &[u8; 32]) -> Result<Advertising, ErrorCode>
    ensures { YieldsAny done (set_advertising_data p.now) put_advertising s.advertising s result }
{
    Ok(s.advertising.with_data(load_of(p)?))
}

// LE Set Scan Response Data (section 7.8.8). One function with the data would be handed which field it sets, and is no plainer.
#[tactic(auto, unfolding(commands::specs::Air::set_scan_response_data))]
pub fn set_scan_response_data(s: Controller, p: &[u8; 32]) -> Result<Advertising, ErrorCode>
    ensures { YieldsAny done (set_scan_response_data p.now) put_advertising s.advertising s result }
{
    Ok(s.advertising.with_scan_response(load_of(p)?))
}

// A random address of six zeroes counts as none: so it stands before one is set.
fn is_zero(address: [u8; 6]) -> bool
    ensures { result ≡ same_list address (replicate 6 0) }
{
    address == [0; 6]
}

// Whether advertising is to start under a random address that is all zero.
fn lacks_address(s: Controller, enable: u8) -> bool
    ensures { (size : ℕ) (pool : List ℕ) → result ≡ (eqb enable 1 && no_random_address (view s size pool)) }
{
    enable == 1 && s.advertising.own_address_type() == 1 && is_zero(s.settings.random_address)
}

// LE Set Advertising Enable (section 7.8.9).
pub fn set_advertising_enable(s: Controller, p: &[u8; 1]) -> Result<Advertising, ErrorCode>
    ensures { YieldsAny done (set_advertising_enable p.now) put_advertising s.advertising s result }
{
    let mut advertising = s.advertising;
    let [enabled] = *p;
    if enabled > 1 || lacks_address(s, enabled) {
        return Err(ErrorCode::InvalidParameters);
    }
    advertising.enabled = enabled;
    Ok(advertising)
}
