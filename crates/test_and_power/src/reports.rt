// What the profile says of itself: link layer states, advertising data and advertising sets (Core Vol 4 Part E sections 7.8.27,
// 7.8.57 and 7.8.58).
ghost use Rattle.commands.specs.Outcome.{Answers};
ghost use Rattle.commands.specs.Test.{read_supported_states, read_maximum_advertising_length, read_advertising_sets};

use answers::Answer;
use profile::ControllerRow;

// LE Read Supported States (section 7.8.27).
#[tactic(auto, unfolding(commands::specs::Test::read_supported_states))]
pub fn read_supported_states(profile: ControllerRow) -> Answer
    ensures { Answers (read_supported_states profile) result }
{
    commands::succeeded(&profile.supported_states)
}

// LE Read Maximum Advertising Data Length (section 7.8.57).
#[tactic(auto, unfolding(commands::specs::Test::read_maximum_advertising_length))]
pub fn read_maximum_advertising_length(profile: ControllerRow) -> Answer
    ensures { Answers (read_maximum_advertising_length profile) result }
{
    commands::succeeded(&profile.max_adv_data_len.to_le_bytes())
}

// LE Read Number of Supported Advertising Sets (section 7.8.58).
#[tactic(auto, unfolding(commands::specs::Test::read_advertising_sets))]
pub fn read_advertising_sets(profile: ControllerRow) -> Answer
    ensures { Answers (read_advertising_sets profile) result }
{
    commands::succeeded(&[profile.adv_sets])
}
