// The longest data packets: of a link, and those suggested for new links.
ghost use Rattle.std.specs.Prelude.{◌≡◌, ◌+◌, ◌≤◌, ◌++◌, length, flat_map};
ghost use Rattle.octets.specs.Octets.{le, word};
ghost use Rattle.links.specs.Links.{CountsFit, opened};
ghost use Rattle.answers.specs.Answers.{followed};
ghost use Rattle.commands.specs.Outcome.{Answers, GivesAny, done, done_handle};
ghost use Rattle.commands.specs.Refused.{YieldsAny};
ghost use Rattle.commands.specs.Put.{put_links, put_settings};
ghost use Rattle.commands.specs.Checks.{data_length_valid};
ghost use Rattle.commands.specs.Link.{new_octets, new_time, data_length_change, set_data_length};
ghost use Rattle.commands.specs.Link.{read_suggested_data_length, write_suggested_data_length};
ghost use Rattle.link.specs.Link.{data_length_asked};

use answers::Answer;
use commands::{Answered, ErrorCode};
use hci::status::SUCCESS;
use hci::subevent::DATA_LENGTH_CHANGE;
use links::{Connection, Links};
use profile::ControllerRow;
use state::{Controller, Masks, Settings};

// The longest data packets: so many octets, sent in so many microseconds.
#[derive(Clone, Copy, PartialEq)]
struct DataLength {
    octets: u16,
    time: u16,
}

impl DataLength {
    // The two numbers at index at of a command's parameters.
    fn read(p: &[u8], at: usize) -> DataLength
        requires { at + 4 ≤ length p.now }
        ensures { (result.octets ≡ word p.now at) × (result.time ≡ word p.now (at + 2)) }
    {
        DataLength {
            octets: octets::word_at(p, at),
            time: octets::word_at(p, at + 2),
        }
    }

    // Whether both are in their ranges (sections 7.8.33 and 7.8.35).
    #[tactic(auto, unfolding(commands::specs::Checks::data_length_valid))]
    fn is_valid(self) -> bool
        ensures { result ≡ data_length_valid self.octets self.time }
    {
        (0x001B..=0x00FB).contains(&self.octets) && (0x0148..=0x4290).contains(&self.time)
    }
}

// The parameters of LE Data Length Change (section 7.7.65.7): what is sent is what the link now has, what is received the
// profile's greatest.
fn change_params(handle: u16, sent: DataLength, received: DataLength) -> [[u8; 2]; 5]
    ensures { flat_map (λ x. x) result
        ≡ le 2 handle ++ le 2 sent.octets ++ le 2 sent.time ++ le 2 received.octets ++ le 2 received.time }
{
    [
        handle,
        sent.octets,
        sent.time,
        received.octets,
        received.time,
    ]
    .map(u16::to_le_bytes)
}

// The profile's greatest.
fn greatest(profile: ControllerRow) -> DataLength
    ensures { (result.octets ≡ profile.max_tx_octets) × (result.time ≡ profile.max_tx_time) }
{
    DataLength {
        octets: profile.max_tx_octets,
        time: profile.max_tx_time,
    }
}

// What the host asks for, cut to the profile's greatest.
fn new_data_length(profile: ControllerRow, p: &[u8; 6]) -> DataLength
    ensures { (result.octets ≡ new_octets profile p.now) × (result.time ≡ new_time profile p.now) }
{
    let asked = DataLength::read(p, 2);
    let greatest = greatest(profile);
    DataLength {
        octets: asked.octets.min(greatest.octets),
        time: asked.time.min(greatest.time),
    }
}

// The answer to Set Data Length about the connection c as it was: LE Data Length Change follows where something changes.
fn data_length_change(profile: ControllerRow, masks: Masks, c: Connection, p: &[u8; 6]) -> Answer
    ensures { Answers (followed (data_length_change profile p.now masks c) (done_handle 0 (word p.now 0))) result }
{
    let handle = octets::word_at(p, 0);
    let new = new_data_length(profile, p);
    let old = DataLength {
        octets: c.tx_octets,
        time: c.tx_time,
    };
    let answer = answers::done_handle(SUCCESS, handle);
    if new == old {
        return answer;
    }
    let params = change_params(handle, new, greatest(profile));
    commands::followed_by_le(answer, masks, DATA_LENGTH_CHANGE, params.as_flattened())
}

// The link that Set Data Length asks for, where it may be changed.
fn asked(links: Links, p: &[u8; 6]) -> Result<Connection, ErrorCode>
    requires { links.count ≤ 16 }
    ensures { result ≡ data_length_asked p.now (opened links) }
{
    if !DataLength::read(p, 2).is_valid() {
        return Err(ErrorCode::InvalidParameters);
    }
    links::connection_of(links, octets::word_at(p, 0)).ok_or(ErrorCode::UnknownConnection)
}

// LE Set Data Length (section 7.8.33). With Set PHY it shares the search for the link alone: each refuses in its own form.
#[tactic(auto, unfolding(commands::specs::Link::set_data_length))]
pub fn set_data_length(s: Controller, profile: ControllerRow, p: &[u8; 6]) -> Answered<Links>
    requires { CountsFit s.links }
    ensures { GivesAny (set_data_length profile p.now) s (put_links result.part s) result.answer }
{
    let handle = octets::word_at(p, 0);
    match asked(s.links, p) {
        Ok(c) => {
            let new = new_data_length(profile, p);
            Answered {
                part: links::set_data_length(s.links, handle, new.octets, new.time),
                answer: data_length_change(profile, s.masks, c, p),
            }
        }
        Err(code) => Answered::done_handle(s.links, Err(code), handle),
    }
}

// LE Read Suggested Default Data Length (section 7.8.34).
#[tactic(auto, unfolding(commands::specs::Link::read_suggested_data_length))]
pub fn read_suggested_data_length(settings: Settings) -> Answer
    ensures { Answers (read_suggested_data_length settings) result }
{
    let words = settings.suggested_data_length.map(u16::to_le_bytes);
    commands::succeeded(words.as_flattened())
}

// LE Write Suggested Default Data Length (section 7.8.35).
#[tactic(auto, unfolding(commands::specs::Link::write_suggested_data_length))]
pub fn write_suggested_data_length(s: Controller, p: &[u8; 4]) -> Result<Settings, ErrorCode>
    ensures { YieldsAny done (write_suggested_data_length p.now) put_settings s.settings s result }
{
    let suggested = DataLength::read(p, 0);
    let mut settings = s.settings;
    if !suggested.is_valid() {
        return Err(ErrorCode::InvalidParameters);
    }
    settings.suggested_data_length = [suggested.octets, suggested.time];
    Ok(settings)
}
