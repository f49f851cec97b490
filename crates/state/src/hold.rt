// Question 3: does the state hold together? Decided exactly, the cheap conditions first, since every exported call asks it.
ghost use Rattle.std.specs.Prelude.{◌≡◌};
ghost use Rattle.state.specs.Holding.{accept_holds, resolving_holds, advertising_holds, settings_hold, own_parts_hold};
ghost use Rattle.state.specs.Holding.{place_size, state_holds};

use crate::{Advertising, Controller, Recent, Settings};
use filters::{AcceptList, ResolvingList};
use links::Places;
use profile::ControllerRow;

// The places of the pool: one for each packet that the profile has room for, with the longest packet's data and the five octets
// before them.
pub fn places(profile: ControllerRow) -> Places
    ensures { (result.count ≡ profile.acl_count) × (result.size ≡ place_size profile) }
{
    Places {
        count: usize::from(profile.acl_count),
        size: usize::from(profile.acl_len) + 5,
    }
}

// Does the state hold together for a profile?
#[tactic(auto, unfolding(crate::specs::Holding::state_holds))]
pub fn holds(s: Controller, profile: ControllerRow) -> bool
    ensures { result ≡ state_holds s profile }
{
    own_parts_hold(s.settings, s.advertising, s.recent)
        && links::links_hold(s.links, places(profile))
        && accept_holds(s.accept_list, profile.accept_list_size)
        && resolving_holds(s.resolving_list, profile.resolving_list_size)
}

// The parts that no profile bounds.
#[tactic(auto, unfolding(crate::specs::Holding::own_parts_hold))]
fn own_parts_hold(settings: Settings, advertising: Advertising, recent: Recent) -> bool
    ensures { result ≡ own_parts_hold settings advertising recent }
{
    settings_hold(settings) && advertising_holds(advertising) && recent.count <= 32
}

// Family and test are at most 2.
#[tactic(auto, unfolding(crate::specs::Holding::settings_hold))]
fn settings_hold(settings: Settings) -> bool
    ensures { result ≡ settings_hold settings }
{
    settings.advertising_family <= 2 && settings.test <= 2
}

// Advertising and scan data have at most 31 octets.
#[tactic(auto, unfolding(crate::specs::Holding::advertising_holds))]
fn advertising_holds(advertising: Advertising) -> bool
    ensures { result ≡ advertising_holds advertising }
{
    advertising.data_len <= 31 && advertising.scan_response_len <= 31
}

// The accept list fits its array and the profile, and its entries differ.
#[tactic(auto, unfolding(crate::specs::Holding::accept_holds))]
fn accept_holds(list: AcceptList, size: u8) -> bool
    ensures { result ≡ accept_holds list size }
{
    list.count <= 32 && list.count <= usize::from(size) && filters::accept_entries_differ(list)
}

// The resolving list fits its array and the profile, and its identities differ.
#[tactic(auto, unfolding(crate::specs::Holding::resolving_holds))]
fn resolving_holds(list: ResolvingList, size: u8) -> bool
    ensures { result ≡ resolving_holds list size }
{
    list.count <= 16 && list.count <= usize::from(size) && filters::identities_differ(list)
}
