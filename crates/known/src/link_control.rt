// The commands of link control (Core Vol 4 Part E section 7.1): Disconnect and Read Remote Version Information.
ghost use Rattle.std.specs.Prelude.{◌≡◌, ◌≤◌};
ghost use Rattle.links.specs.Links.{CountsFit, opened};
ghost use Rattle.commands.specs.Put.{put_links};
ghost use Rattle.commands.specs.Outcome.{Answers};
ghost use Rattle.answers.specs.Answers.{status};
ghost use Rattle.commands.specs.Refused.{YieldsAny};
ghost use Rattle.commands.specs.Known as definition;

use answers::Answer;
use commands::ErrorCode;
use hci::event_code::READ_REMOTE_VERSION_COMPLETE;
use hci::mask;
use hci::status::{SUCCESS, UNKNOWN_CONNECTION};
use links::Links;
use profile::ControllerRow;
use state::{Controller, Masks};

// Whether a host may give this reason (section 7.1.6).
#[tactic(auto, unfolding(commands::specs::Known::reason_allowed, lists::specs::Lists::any))]
fn reason_allowed(reason: u8) -> bool
    ensures { result ≡ definition.reason_allowed reason }
{
    matches!(reason, 0x05 | 0x13 | 0x14 | 0x15 | 0x1A | 0x29 | 0x3B)
}

// Disconnect (section 7.1.6). The link stays until the peer has acknowledged; then a notice ends it.
#[tactic(auto, unfolding(commands::specs::Known::disconnect))]
pub fn disconnect(s: Controller, p: &[u8; 3]) -> Result<Links, ErrorCode>
    requires { CountsFit s.links }
    ensures { YieldsAny status (definition.disconnect p.now) put_links s.links s result }
{
    let reason = p[2];
    if !reason_allowed(reason) {
        return Err(ErrorCode::InvalidParameters);
    }
    let handle = octets::word_at(p, 0);
    let c = links::connection_of(s.links, handle).ok_or(ErrorCode::UnknownConnection)?;
    if c.terminating != 0 {
        return Err(ErrorCode::CommandDisallowed);
    }
    Ok(links::set_terminating(s.links, handle, reason))
}

// Read Remote Version Information (section 7.1.23): the peer reports the controller's own identity.
#[tactic(auto, unfolding(commands::specs::Known::read_remote_version, commands::specs::Following::remote_version_complete))]
pub fn read_remote_version(
    profile: ControllerRow,
    p: &[u8; 2],
    masks: Masks,
    links: Links,
) -> Answer
    requires { links.count ≤ 16 }
    ensures { Answers (definition.read_remote_version profile p.now masks (opened links)) result }
{
    let handle = octets::word_at(p, 0);
    if !links::has(links, handle) {
        return answers::status(UNKNOWN_CONNECTION);
    }
    let answer = answers::status(SUCCESS);
    if !masks.enables(mask::READ_REMOTE_VERSION_COMPLETE) {
        return answer;
    }
    let [low, high] = handle.to_le_bytes();
    let [company_low, company_high] = profile.company.to_le_bytes();
    let [subversion_low, subversion_high] = profile.lmp_subversion.to_le_bytes();
    let params = [
        SUCCESS,
        low,
        high,
        profile.lmp_version,
        company_low,
        company_high,
        subversion_low,
        subversion_high,
    ];
    commands::followed_by_event(answer, READ_REMOTE_VERSION_COMPLETE, &params)
}
