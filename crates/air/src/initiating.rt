// Initiating a connection, and giving it up.
ghost use Rattle.std.specs.Prelude.{◌≡◌, not, ◌||◌, leb, eqb};
ghost use Rattle.commands.specs.Air.{create_connection_valid, create_connection, create_connection_cancel};
ghost use Rattle.commands.specs.Outcome.{GivesAny, done};
ghost use Rattle.answers.specs.Answers.{status};
ghost use Rattle.commands.specs.Refused.{YieldsAny};
ghost use Rattle.commands.specs.Put.{put_scanning};

use crate::scanning::scan_times_valid;
use commands::{Answered, ConnectionParams, ErrorCode};
use hci::status::{SUCCESS, UNKNOWN_CONNECTION};
use state::{Controller, Scanning};

// The peer's address type counts with filter policy 0 only: with 1 the accept list names the peers.
fn peer_type_valid(filter: u8, peer_type: u8) -> bool
    ensures { result ≡ (not (eqb filter 0) || leb peer_type 3) }
{
    filter != 0 || peer_type <= 3
}

// Scan interval and window, filter policy, own address type, the peer's, then the four connection parameters.
#[tactic(auto, unfolding(commands::specs::Air::create_connection_valid))]
fn create_connection_valid(p: &[u8; 25]) -> bool
    ensures { result ≡ create_connection_valid p.now }
{
    let filter = p[4];
    scan_times_valid(octets::word_at(p, 0), octets::word_at(p, 2))
        && filter <= 1
        && p[12] <= 3
        && peer_type_valid(filter, p[5])
        && ConnectionParams::read(p, 13).is_valid()
}

// LE Create Connection (section 7.8.12): not while initiating; then its parameters. The filter policy is kept.
#[tactic(auto, unfolding(commands::specs::Air::create_connection))]
pub fn create_connection(s: Controller, p: &[u8; 25]) -> Result<Scanning, ErrorCode>
    ensures { YieldsAny status (create_connection p.now) put_scanning s.scanning s result }
{
    let mut scanning = s.scanning;
    if scanning.initiating != 0 {
        return Err(ErrorCode::CommandDisallowed);
    }
    if !create_connection_valid(p) {
        return Err(ErrorCode::InvalidParameters);
    }
    scanning.initiating = 1;
    scanning.initiator_filter = p[4];
    Ok(scanning)
}

// LE Create Connection Cancel (section 7.8.13): the event that the connection failed follows. It is refused in one place: a
// `Result` inside for `?` would be longer.
#[tactic(auto, unfolding(commands::specs::Air::create_connection_cancel))]
pub fn create_connection_cancel(s: Controller) -> Answered<Scanning>
    ensures { GivesAny create_connection_cancel s (put_scanning result.part s) result.answer }
{
    let mut scanning = s.scanning;
    if scanning.initiating == 0 {
        return Answered::done(scanning, Err(ErrorCode::CommandDisallowed));
    }
    scanning.initiating = 0;
    let done = answers::done(SUCCESS);
    Answered {
        part: scanning,
        answer: commands::followed_by_connection_failed(done, s.masks, UNKNOWN_CONNECTION),
    }
}
