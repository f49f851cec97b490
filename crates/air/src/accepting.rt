// The filter accept list. It may not change while it is in use.
ghost use Rattle.std.specs.Prelude.{◌≡◌, ◌≤◌};
ghost use Rattle.commands.specs.Air.{accept_type_valid, clear_accept_list, add_to_accept_list, remove_from_accept_list};
ghost use Rattle.commands.specs.Outcome.{Ready, done};
ghost use Rattle.commands.specs.Refused.{Yields, YieldsAny};
ghost use Rattle.commands.specs.Put.{put_accept_list};

use commands::ErrorCode;
use filters::AcceptList;
use profile::ControllerRow;
use state::Controller;

// A public or a random device address, or an anonymous advertiser. `kind` is the host's octet: any other number is a kind that
// is refused here.
fn accept_type_valid(kind: u8) -> bool
    ensures { result ≡ accept_type_valid kind }
{
    kind <= 1 || kind == 0xFF
}

// LE Clear Filter Accept List (section 7.8.15).
pub fn clear_accept_list(s: Controller) -> Result<AcceptList, ErrorCode>
    ensures { YieldsAny done clear_accept_list put_accept_list s.accept_list s result }
{
    if state::accept_list_in_use(s) {
        return Err(ErrorCode::CommandDisallowed);
    }
    Ok(AcceptList::new())
}

// LE Add Device To Filter Accept List (section 7.8.16): an entry that is present succeeds where the list is full.
pub fn add_to_accept_list(
    s: Controller,
    profile: ControllerRow,
    p: &[u8; 7],
) -> Result<AcceptList, ErrorCode>
    requires { Ready s profile }
    ensures { Yields done (add_to_accept_list profile p.now) profile put_accept_list s.accept_list s result }
{
    if state::accept_list_in_use(s) {
        return Err(ErrorCode::CommandDisallowed);
    }
    if !accept_type_valid(p[0]) {
        return Err(ErrorCode::InvalidParameters);
    }
    let size = usize::from(profile.accept_list_size);
    s.accept_list
        .add(filters::accept_entry(p), size)
        .ok_or(ErrorCode::MemoryCapacityExceeded)
}

// LE Remove Device From Filter Accept List (section 7.8.17): an absent entry succeeds.
pub fn remove_from_accept_list(s: Controller, p: &[u8; 7]) -> Result<AcceptList, ErrorCode>
    requires { s.accept_list.count ≤ 32 }
    ensures { YieldsAny done (remove_from_accept_list p.now) put_accept_list s.accept_list s result }
{
    if state::accept_list_in_use(s) {
        return Err(ErrorCode::CommandDisallowed);
    }
    if !accept_type_valid(p[0]) {
        return Err(ErrorCode::InvalidParameters);
    }
    Ok(s.accept_list.remove(filters::accept_entry(p)))
}
