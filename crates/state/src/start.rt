// The state that a controller starts with, and its reset.
ghost use Rattle.std.specs.Prelude.{◌≡◌, ℕ, ◌≤◌, List, []};
ghost use Rattle.profile.specs.declared.ControllerRow.{ControllerRow};
ghost use Rattle.state.specs.Holding.{AdvertisingHolds, StateHolds};
ghost use Rattle.state.specs.State.{view, answers_of, advertising_of, default_model, fresh, reset_model};
ghost use Rattle.state.specs.State.{default_settings, default_advertising};

use crate::{Advertising, Controller, Counters, Masks, Recent, Scanning, Settings};
use filters::{AcceptList, ResolvingList};
use links::Links;

// The state a controller starts with.
pub fn default_state() -> Controller
    ensures viewed { (size : ℕ) (pool : List ℕ) → view result size pool ≡ default_model }
    ensures held { (k : ControllerRow) → StateHolds result k }
{
    fresh_state(
        Counters {
            commands: 0,
            unknown_commands: 0,
            acl_packets: 0,
            acl_dropped: 0,
        },
        Recent::new(),
    )
}

// The state after a reset: the counters and the answers stay.
pub fn reset(s: Controller) -> Controller
    ensures viewed { (size : ℕ) (pool : List ℕ) → view result size pool ≡ reset_model (view s size pool) }
    ensures held { s.recent.count ≤ 32 → (k : ControllerRow) → StateHolds result k }
{
    fresh_state(s.counters, s.recent)
}

// The default state with these counters and answers.
fn fresh_state(counters: Counters, recent: Recent) -> Controller
    ensures viewed { (size : ℕ) (pool : List ℕ) → view result size pool ≡ fresh counters (answers_of recent) }
    ensures held { recent.count ≤ 32 → (k : ControllerRow) → StateHolds result k }
{
    Controller {
        masks: Masks {
            event: hci::mask::DEFAULT,
            event_page2: 0,
            le_event: hci::mask::LE_DEFAULT,
        },
        settings: default_settings(),
        advertising: default_advertising(),
        scanning: Scanning {
            params: [0x00, 0x10, 0x00, 0x10, 0x00, 0x00, 0x00],
            enable: [0; 2],
            initiating: 0,
            initiator_filter: 0,
        },
        accept_list: AcceptList::new(),
        resolving_list: ResolvingList::new(),
        links: Links::new(),
        counters,
        recent,
    }
}

fn default_settings() -> Settings
    ensures { result ≡ default_settings }
{
    Settings {
        random_address: [0; 6],
        address_resolution: 0,
        rpa_timeout: 900,
        suggested_data_length: [27, 328],
        default_phy: [0; 3],
        host_flow_control: 0,
        advertising_family: 0,
        test: 0,
        rf_path_compensation: [0; 2],
    }
}

fn default_advertising() -> Advertising
    ensures { (advertising_of result ≡ default_advertising) × AdvertisingHolds result }
{
    Advertising {
        params: [0x00, 0x08, 0x00, 0x08, 0, 0, 0, 0, 0, 0, 0, 0, 0, 0x07, 0],
        data: [0; 31],
        data_len: 0,
        scan_response: [0; 31],
        scan_response_len: 0,
        enabled: 0,
    }
}

impl Recent {
    // No answer yet. C's header names this type and the two lists, so each has a `new` of its own.
    #[tactic(auto, unfolding(lists::specs::Lists::chunks))]
    pub fn new() -> Recent
        ensures { (answers_of result ≡ []) × (result.count ≡ 0) }
    {
        Recent {
            octets: [0; 96],
            count: 0,
        }
    }
}
