// The commands of the resolving list, of address resolution and of the PHYs (Core Vol 4 Part E sections 7.8.38 to 7.8.49 and
// 7.8.77). For the crate `dispatch`, which picks one by its opcode. Contracts cite `specs/Privacy.antt` of the crate `commands`.
#![tactic(auto)]

mod addresses;
mod phy;
mod preference;
mod resolving;

pub use addresses::{read_resolvable_address, set_address_resolution, set_address_timeout};
pub use phy::{read_maximum_data_length, read_phy, set_default_phy, set_phy};
pub use resolving::{
    add_to_resolving_list, clear_resolving_list, read_resolving_list_size,
    remove_from_resolving_list, set_privacy_mode,
};
