// What the host reads of a link: its channel map, and the features of its peer.
ghost use Rattle.std.specs.Prelude.{◌≤◌};
ghost use Rattle.links.specs.Links.{opened};
ghost use Rattle.commands.specs.Outcome.{Answers};
ghost use Rattle.commands.specs.Link.{read_channel_map, read_remote_features};

use answers::Answer;
use hci::status::{SUCCESS, UNKNOWN_CONNECTION};
use hci::subevent::READ_REMOTE_FEATURES_COMPLETE;
use links::Links;
use profile::ControllerRow;
use state::Masks;

// LE Read Channel Map (section 7.8.20): all 37 channels. One function with the other reads of a link (`known`, `privacy`) would
// be handed both answers, and is no plainer.
#[tactic(auto, unfolding(commands::specs::Link::read_channel_map))]
pub fn read_channel_map(links: Links, p: &[u8; 2]) -> Answer
    requires { links.count ≤ 16 }
    ensures { Answers (read_channel_map p.now (opened links)) result }
{
    let handle = octets::word_at(p, 0);
    if links::has(links, handle) {
        return commands::about(SUCCESS, handle, &[0xFF, 0xFF, 0xFF, 0xFF, 0x1F]);
    }
    commands::about(UNKNOWN_CONNECTION, handle, &[0; 5])
}

// LE Read Remote Features (section 7.8.21): the virtual central reports the controller's own features.
#[tactic(auto, unfolding(commands::specs::Link::read_remote_features))]
pub fn read_remote_features(
    links: Links,
    masks: Masks,
    profile: ControllerRow,
    p: &[u8; 2],
) -> Answer
    requires { links.count ≤ 16 }
    ensures { Answers (read_remote_features profile p.now masks (opened links)) result }
{
    let handle = octets::word_at(p, 0);
    if !links::has(links, handle) {
        return answers::status(UNKNOWN_CONNECTION);
    }
    let mut params = [SUCCESS; 11];
    octets::put_two(
        &mut params,
        1,
        &handle.to_le_bytes(),
        &profile.le_features.to_le_bytes(),
    );
    let answer = answers::status(SUCCESS);
    commands::followed_by_le(answer, masks, READ_REMOTE_FEATURES_COMPLETE, &params)
}
