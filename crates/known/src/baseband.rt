// The commands of the controller and baseband (Core Vol 4 Part E section 7.3): the event masks, Reset, flow control towards the
// host, the transmit power and the authenticated payload timeout.
ghost use Rattle.std.specs.Prelude.{◌≡◌, ◌≤◌};
ghost use Rattle.octets.specs.Octets.{number_at, word};
ghost use Rattle.links.specs.Links.{CountsFit, opened};
ghost use Rattle.commands.specs.Parts.{with_event_mask, with_event_mask_page2};
ghost use Rattle.commands.specs.Put.{put_settings, put_links};
ghost use Rattle.commands.specs.Outcome.{Answers, GivesAny, done, done_handle};
ghost use Rattle.commands.specs.Refused.{YieldsAny};
ghost use Rattle.commands.specs.Known as definition;

use answers::Answer;
use commands::{Answered, ErrorCode};
use hci::status::{INVALID_PARAMETERS, SUCCESS, UNKNOWN_CONNECTION};
use links::{Connection, Links};
use profile::ControllerRow;
use state::{Controller, Masks, Settings};

// Set Event Mask (section 7.3.1).
pub fn set_event_mask(masks: Masks, p: &[u8; 8]) -> Masks
    ensures { result ≡ with_event_mask (number_at 8 p.now 0) masks }
{
    Masks {
        event: commands::long_at(p),
        ..masks
    }
}

// Set Event Mask Page 2 (section 7.3.69). A function for each mask: one over all would be handed which field it sets, and is no
// plainer.
pub fn set_event_mask_page2(masks: Masks, p: &[u8; 8]) -> Masks
    ensures { result ≡ with_event_mask_page2 (number_at 8 p.now 0) masks }
{
    Masks {
        event_page2: commands::long_at(p),
        ..masks
    }
}

// Reset (section 7.3.2): links end without events; the counters and the last answers are the controller's own and stay.
pub fn reset(s: Controller) -> Answered<Controller>
    ensures { GivesAny definition.reset s result.part result.answer }
{
    Answered::done(s, Ok(state::reset(s)))
}

// Read Transmit Power Level (section 7.3.35): the current one (0), which is the profile's advertising power, or the greatest
// (1), which is at most 20 dBm.
#[tactic(auto, unfolding(commands::specs::Known::read_transmit_power))]
pub fn read_transmit_power(profile: ControllerRow, p: &[u8; 3], links: Links) -> Answer
    requires { links.count ≤ 16 }
    ensures { Answers (definition.read_transmit_power profile p.now (opened links)) result }
{
    let handle = octets::word_at(p, 0);
    let power = match p[2] {
        0 => profile.adv_tx_power,
        1 => profile.tx_power_max.min(20),
        _ => return commands::about(INVALID_PARAMETERS, handle, &[0]),
    };
    if !links::has(links, handle) {
        return commands::about(UNKNOWN_CONNECTION, handle, &[0]);
    }
    commands::about(SUCCESS, handle, &[power.cast_unsigned()])
}

// Set Controller To Host Flow Control (section 7.3.38): kept, and nothing more.
#[tactic(auto, unfolding(commands::specs::Known::set_host_flow_control))]
pub fn set_host_flow_control(s: Controller, p: &[u8; 1]) -> Result<Settings, ErrorCode>
    ensures { YieldsAny done (definition.set_host_flow_control p.now) put_settings s.settings s result }
{
    let mut settings = s.settings;
    let [host_flow_control] = *p;
    if host_flow_control > 3 {
        return Err(ErrorCode::InvalidParameters);
    }
    settings.host_flow_control = host_flow_control;
    Ok(settings)
}

// Host Buffer Size (section 7.3.39): accepted unread.
#[tactic(auto, unfolding(commands::specs::Known::host_buffer_size))]
pub fn host_buffer_size() -> Answer
    ensures { Answers definition.host_buffer_size result }
{
    answers::done(SUCCESS)
}

// Host Number Of Completed Packets (section 7.3.40): no event unless the parameters are wrong. A device sends none either where
// there are no parameters at all.
#[tactic(auto, unfolding(commands::specs::Known::host_completed_packets))]
pub fn host_completed_packets(p: &[u8]) -> Answer
    ensures { Answers (definition.host_completed_packets p.now) result }
{
    let n = p.len();
    if n == 0 || n == 1 + 4 * usize::from(p[0]) {
        return answers::silent();
    }
    answers::done(INVALID_PARAMETERS)
}

// Read Authenticated Payload Timeout (section 7.3.93). The commands that read something of a link answer each with octets of its
// own number, found or not: one function for them would be handed both answers, and is no plainer.
#[tactic(auto, unfolding(commands::specs::Known::read_auth_payload_timeout))]
pub fn read_auth_payload_timeout(p: &[u8; 2], links: Links) -> Answer
    requires { links.count ≤ 16 }
    ensures { Answers (definition.read_auth_payload_timeout p.now (opened links)) result }
{
    let handle = octets::word_at(p, 0);
    match links::connection_of(links, handle) {
        Some(c) => commands::about(SUCCESS, handle, &c.auth_payload_timeout.to_le_bytes()),
        None => commands::about(UNKNOWN_CONNECTION, handle, &[0; 2]),
    }
}

// Write Authenticated Payload Timeout (section 7.3.94).
#[tactic(auto, unfolding(commands::specs::Known::write_auth_payload_timeout))]
pub fn write_auth_payload_timeout(s: Controller, p: &[u8; 4]) -> Result<Links, ErrorCode>
    requires { CountsFit s.links }
    ensures { YieldsAny (λ code. done_handle code (word p.now 0)) (definition.write_auth_payload_timeout p.now)
        put_links s.links s result }
{
    let handle = octets::word_at(p, 0);
    let timeout = octets::word_at(p, 2);
    let c = links::connection_of(s.links, handle).ok_or(ErrorCode::UnknownConnection)?;
    if payload_timeout_short(timeout, c) {
        return Err(ErrorCode::InvalidParameters);
    }
    Ok(links::set_auth_payload_timeout(s.links, handle, timeout))
}

// Whether a timeout is 0 or shorter than connInterval * (1 + latency). It is in 10 ms units and the interval in 1.25 ms units,
// so it is taken times 8.
#[tactic(auto, unfolding(commands::specs::Known::payload_timeout_short))]
fn payload_timeout_short(timeout: u16, c: Connection) -> bool
    ensures { result ≡ definition.payload_timeout_short timeout c }
{
    timeout == 0 || u32::from(timeout) * 8 < u32::from(c.interval) * (1 + u32::from(c.latency))
}
