// A command that is answered without being carried out: counted, and nothing of it done but that its family may be set.
ghost use Rattle.std.specs.Prelude.{◌≡◌, ◌≤◌, length};
ghost use Rattle.commands.specs.Outcome.{Answers, Ready};
ghost use Rattle.command.specs.Calling.{Gave, told_of, answered_by, answer_for, counters_for, settings_for};

use crate::course::Reason;
use crate::{Noted, family, record};
use answers::Answer;
use hci::status::{INVALID_PARAMETERS, SUCCESS, UNKNOWN_COMMAND, UNSUPPORTED_FEATURE};
use profile::ControllerRow;
use state::{Controller, Counters, Settings};

// Answers a command for this reason.
pub fn answered(
    s: Controller,
    profile: ControllerRow,
    reason: Reason,
    op: u16,
    out: &mut [u8],
) -> Noted
    requires { Ready s profile × (71 ≤ length out.old) }
    ensures { Gave (answered_by reason profile op) profile op s out.old (told_of s result) out.new }
{
    record::finished(
        counters_for(reason, s.counters),
        settings_for(reason, s.settings, op),
        s.recent,
        profile.num_command_packets,
        op,
        answer_for(reason, profile, op),
        out,
    )
}

// An unknown row is always a Command Complete.
fn answer_for(reason: Reason, profile: ControllerRow, op: u16) -> Answer
    ensures { Answers (answer_for reason profile op) result }
{
    match reason {
        Reason::UnknownRow => answers::done(UNKNOWN_COMMAND),
        Reason::NoRow => family::refuse(op, UNKNOWN_COMMAND),
        Reason::Vendor => answers::done(SUCCESS),
        Reason::OtherFamily => family::disallowed(profile, op),
        Reason::Unmodeled => family::refuse(op, UNSUPPORTED_FEATURE),
        Reason::BadParameters => family::refuse(op, INVALID_PARAMETERS),
    }
}

// One command more, and where no row knows it, one unknown command more.
fn counters_for(reason: Reason, counters: Counters) -> Counters
    ensures { result ≡ counters_for reason counters }
{
    let more = counters.count_command();
    match reason {
        Reason::UnknownRow | Reason::NoRow => more.count_unknown(),
        _ => more,
    }
}

// The family is set by a command whose row is listed, unless it follows one of the other.
fn settings_for(reason: Reason, settings: Settings, op: u16) -> Settings
    ensures { result ≡ settings_for reason op settings }
{
    match reason {
        Reason::Unmodeled | Reason::BadParameters => family::with_family(settings, op),
        _ => settings,
    }
}
