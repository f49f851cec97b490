// The commands of the PHYs and of the longest data packets.
ghost use Rattle.std.specs.Prelude.{◌≤◌};
ghost use Rattle.links.specs.Links.{CountsFit, opened};
ghost use Rattle.commands.specs.Put.{put_settings, put_links};
ghost use Rattle.commands.specs.Outcome.{Answers, GivesAny, done};
ghost use Rattle.commands.specs.Refused.{YieldsAny};
ghost use Rattle.commands.specs.Privacy.{read_maximum_data_length, read_phy, set_default_phy, set_phy};

use crate::preference::{Preference, pick_phy};
use answers::Answer;
use commands::{Answered, ErrorCode};
use hci::status::{SUCCESS, UNKNOWN_CONNECTION};
use hci::subevent::PHY_UPDATE_COMPLETE;
use links::Links;
use profile::ControllerRow;
use state::{Controller, Settings};

// LE Read Maximum Data Length (section 7.8.46): sending and receiving alike.
#[tactic(auto, unfolding(commands::specs::Privacy::read_maximum_data_length))]
pub fn read_maximum_data_length(profile: ControllerRow) -> Answer
    ensures { Answers (read_maximum_data_length profile) result }
{
    let (octets, time) = (profile.max_tx_octets, profile.max_tx_time);
    let words = [octets, time, octets, time].map(u16::to_le_bytes);
    commands::succeeded(words.as_flattened())
}

// LE Read PHY (section 7.8.47). One function with the other reads of a link (`known`, `link`) would be handed both answers, and
// is no plainer.
#[tactic(auto, unfolding(commands::specs::Privacy::read_phy))]
pub fn read_phy(p: &[u8; 2], links: Links) -> Answer
    requires { links.count ≤ 16 }
    ensures { Answers (read_phy p.now (opened links)) result }
{
    let handle = octets::word_at(p, 0);
    match links::connection_of(links, handle) {
        Some(c) => commands::about(SUCCESS, handle, &[c.tx_phy, c.rx_phy]),
        None => commands::about(UNKNOWN_CONNECTION, handle, &[0; 2]),
    }
}

// LE Set Default PHY (section 7.8.48).
#[tactic(auto, unfolding(commands::specs::Privacy::set_default_phy))]
pub fn set_default_phy(
    s: Controller,
    profile: ControllerRow,
    p: &[u8; 3],
) -> Result<Settings, ErrorCode>
    ensures { YieldsAny done (set_default_phy profile p.now) put_settings s.settings s result }
{
    let mut settings = s.settings;
    let [all, tx, rx] = *p;
    let preference = Preference { all, tx, rx };
    if preference.is_empty() {
        return Err(ErrorCode::InvalidParameters);
    }
    if preference.is_unsupported(profile) {
        return Err(ErrorCode::UnsupportedFeature);
    }
    settings.default_phy = [all, tx, rx];
    Ok(settings)
}

// LE Set PHY (section 7.8.49): the handle alone is tested. It is refused in one place: a `Result` inside for `?` would be longer.
#[tactic(auto, unfolding(commands::specs::Privacy::set_phy))]
pub fn set_phy(s: Controller, profile: ControllerRow, p: &[u8; 7]) -> Answered<Links>
    requires { CountsFit s.links }
    ensures { GivesAny (set_phy profile p.now) s (put_links result.part s) result.answer }
{
    let handle = octets::word_at(p, 0);
    let Some(c) = links::connection_of(s.links, handle) else {
        return Answered::status(s.links, Err(ErrorCode::UnknownConnection));
    };
    let preference = Preference {
        all: p[2],
        tx: p[3],
        rx: p[4],
    };
    let tx = pick_phy(profile, preference.sending(), c.tx_phy);
    let rx = pick_phy(profile, preference.receiving(), c.rx_phy);
    let [low, high] = handle.to_le_bytes();
    let params = [SUCCESS, low, high, tx, rx];
    let status = answers::status(SUCCESS);
    Answered {
        part: links::set_phys(s.links, handle, tx, rx),
        answer: commands::followed_by_le(status, s.masks, PHY_UPDATE_COMPLETE, &params),
    }
}
