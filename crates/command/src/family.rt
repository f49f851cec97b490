// The advertising families (section 3.1.1), and refusals.
ghost use Rattle.std.specs.Prelude.{◌≡◌, [], ◌∷◌, cond, eqb};
ghost use Rattle.signed.specs.Signed.{octet_of};
ghost use Rattle.answers.specs.Answers.{complete};
ghost use Rattle.commands.specs.Outcome.{Answers};
ghost use Rattle.commands.specs.Command.{family_of, refused};
ghost use Rattle.command.specs.Calling.{differs, family_in};

use answers::Answer;
use hci::status::COMMAND_DISALLOWED;
use profile::ControllerRow;
use state::{EXTENDED, LEGACY, Settings};

// The advertising family of an opcode: LEGACY, EXTENDED or 0. A number and no enum, as it goes into the octet of the state that C
// hands in.
#[tactic(auto, unfolding(commands::specs::Command::family_of))]
pub fn family_of(op: u16) -> u8
    ensures { result ≡ family_of op }
{
    if (0x2006..=0x200D).contains(&op) {
        return LEGACY;
    }
    if (0x2036..=0x204A).contains(&op) || matches!(op, 0x205C | 0x205D) {
        return EXTENDED;
    }
    0
}

// Whether a command of this family follows one of the other.
pub fn other_family(family: u8, now: u8) -> bool
    ensures { result ≡ differs family now }
{
    family != 0 && now != 0 && now != family
}

// The settings with a command's family set, where it has one.
pub fn with_family(settings: Settings, op: u16) -> Settings
    ensures { result ≡ family_in op settings }
{
    let family = family_of(op);
    if family == 0 {
        return settings;
    }
    let mut t = settings;
    t.advertising_family = family;
    t
}

// Command Status for an opcode that is acknowledged so, else Command Complete.
#[tactic(auto, unfolding(commands::specs::Command::refused))]
pub fn refuse(op: u16, code: u8) -> Answer
    ensures { Answers (refused op code) result }
{
    if hci::is_async(op) {
        return answers::status(code);
    }
    answers::done(code)
}

// The refusal of a command of the other family; 0x2007 adds the power, as the device does.
pub fn disallowed(profile: ControllerRow, op: u16) -> Answer
    ensures { Answers (cond (eqb op 0x2007) (complete (0x0C ∷ octet_of profile.adv_tx_power ∷ [])) (refused op 0x0C)) result }
{
    if op == 0x2007 {
        return answers::complete(&[COMMAND_DISALLOWED, profile.adv_tx_power.cast_unsigned()]);
    }
    refuse(op, COMMAND_DISALLOWED)
}
