// What the controller reports of itself: commands that answer from the profile and change nothing.
ghost use Rattle.commands.specs.Air.{read_buffer_size, read_local_features, read_advertising_power, read_accept_list_size};
ghost use Rattle.commands.specs.Outcome.{Answers};

use answers::Answer;
use profile::ControllerRow;

// LE Read Buffer Size (section 7.8.2).
#[tactic(auto, unfolding(commands::specs::Air::read_buffer_size))]
pub fn read_buffer_size(profile: ControllerRow) -> Answer
    ensures { Answers (read_buffer_size profile) result }
{
    let [low, high] = profile.acl_len.to_le_bytes();
    commands::succeeded(&[low, high, profile.acl_count])
}

// LE Read Local Supported Features (section 7.8.3).
#[tactic(auto, unfolding(commands::specs::Air::read_local_features))]
pub fn read_local_features(profile: ControllerRow) -> Answer
    ensures { Answers (read_local_features profile) result }
{
    commands::succeeded(&profile.le_features.to_le_bytes())
}

// LE Read Advertising Physical Channel Tx Power (section 7.8.6).
#[tactic(auto, unfolding(commands::specs::Air::read_advertising_power))]
pub fn read_advertising_power(profile: ControllerRow) -> Answer
    ensures { Answers (read_advertising_power profile) result }
{
    commands::succeeded(&[profile.adv_tx_power.cast_unsigned()])
}

// LE Read Filter Accept List Size (section 7.8.14).
#[tactic(auto, unfolding(commands::specs::Air::read_accept_list_size))]
pub fn read_accept_list_size(profile: ControllerRow) -> Answer
    ensures { Answers (read_accept_list_size profile) result }
{
    commands::succeeded(&[profile.accept_list_size])
}
