// The commands of the resolving list. The keys that come with an identity are not kept, since the controller resolves no address.
ghost use Rattle.std.specs.Prelude.{◌≡◌, [], ◌≤◌};
ghost use Rattle.lists.specs.Lists.{any};
ghost use Rattle.filters.specs.Filters.{resolving_entries, has_identity};
ghost use Rattle.state.specs.State.{view};
ghost use Rattle.commands.specs.Put.{put_resolving_list};
ghost use Rattle.commands.specs.Outcome.{Answers, Ready, done};
ghost use Rattle.commands.specs.Refused.{Yields, YieldsAny};
ghost use Rattle.commands.specs.Privacy.{add_to_resolving_list, remove_from_resolving_list, clear_resolving_list};
ghost use Rattle.commands.specs.Privacy.{read_resolving_list_size, set_privacy_mode};
ghost use Rattle.commands.specs.Privacy.{locked as is_locked};

use answers::Answer;
use commands::ErrorCode;
use filters::ResolvingList;
use profile::ControllerRow;
use state::Controller;

// Whether the list may not change: address resolution is on and the link layer is busy. What the pool holds does not matter, so
// the contract names an empty one.
fn locked(s: Controller) -> bool
    ensures { result ≡ is_locked (view s 0 []) }
{
    s.settings.address_resolution != 0 && state::busy(s)
}

// Whether an identity is on the list.
#[tactic(auto, using(lists::proofs::Search::position_is_some))]
fn listed(list: ResolvingList, identity: [u8; 7]) -> bool
    requires { list.count ≤ 16 }
    ensures { result ≡ any (has_identity identity) (resolving_entries list) }
{
    list.position(identity).is_some()
}

// LE Add Device To Resolving List (section 7.8.38).
#[tactic(auto, unfolding(commands::specs::Privacy::add_to_resolving_list))]
pub fn add_to_resolving_list(
    s: Controller,
    profile: ControllerRow,
    p: &[u8; 39],
) -> Result<ResolvingList, ErrorCode>
    requires { Ready s profile }
    ensures { Yields done (add_to_resolving_list profile p.now) profile put_resolving_list s.resolving_list s result }
{
    let list = s.resolving_list;
    if locked(s) {
        return Err(ErrorCode::CommandDisallowed);
    }
    if p[0] > 1 {
        return Err(ErrorCode::InvalidParameters);
    }
    let identity = filters::identity(p);
    if listed(list, identity) {
        return Err(ErrorCode::InvalidParameters);
    }
    if list.count >= usize::from(profile.resolving_list_size) {
        return Err(ErrorCode::MemoryCapacityExceeded);
    }
    Ok(list.push(identity))
}

// LE Remove Device From Resolving List (section 7.8.39).
#[tactic(auto, unfolding(commands::specs::Privacy::remove_from_resolving_list))]
pub fn remove_from_resolving_list(s: Controller, p: &[u8; 7]) -> Result<ResolvingList, ErrorCode>
    requires { s.resolving_list.count ≤ 16 }
    ensures { YieldsAny done (remove_from_resolving_list p.now) put_resolving_list s.resolving_list s result }
{
    let list = s.resolving_list;
    if locked(s) {
        return Err(ErrorCode::CommandDisallowed);
    }
    let identity = filters::identity(p);
    if !listed(list, identity) {
        return Err(ErrorCode::UnknownConnection);
    }
    Ok(list.remove(identity))
}

// LE Clear Resolving List (section 7.8.40).
#[tactic(auto, unfolding(commands::specs::Privacy::clear_resolving_list))]
pub fn clear_resolving_list(s: Controller) -> Result<ResolvingList, ErrorCode>
    ensures { YieldsAny done clear_resolving_list put_resolving_list s.resolving_list s result }
{
    if locked(s) {
        return Err(ErrorCode::CommandDisallowed);
    }
    Ok(ResolvingList::new())
}

// LE Read Resolving List Size (section 7.8.41).
#[tactic(auto, unfolding(commands::specs::Privacy::read_resolving_list_size))]
pub fn read_resolving_list_size(profile: ControllerRow) -> Answer
    ensures { Answers (read_resolving_list_size profile) result }
{
    commands::succeeded(&[profile.resolving_list_size])
}

// LE Set Privacy Mode (section 7.8.77): network privacy 0, device privacy 1. It shares its two refusals with the removal, but
// tests the mode between them: one function with a closure would be longer than what it shares.
#[tactic(auto, unfolding(commands::specs::Privacy::set_privacy_mode))]
pub fn set_privacy_mode(s: Controller, p: &[u8; 8]) -> Result<ResolvingList, ErrorCode>
    requires { s.resolving_list.count ≤ 16 }
    ensures { YieldsAny done (set_privacy_mode p.now) put_resolving_list s.resolving_list s result }
{
    let list = s.resolving_list;
    if locked(s) {
        return Err(ErrorCode::CommandDisallowed);
    }
    let mode = p[7];
    if mode > 1 {
        return Err(ErrorCode::InvalidParameters);
    }
    let identity = filters::identity(p);
    if !listed(list, identity) {
        return Err(ErrorCode::UnknownConnection);
    }
    Ok(list.set_mode(identity, mode))
}
