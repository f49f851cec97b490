// The controller's two filter lists, each a flat array of octets beside its count: the accept list (32 entries of a type
// and an address) and the resolving list (16 identities, each a type, an address and its privacy mode). For the commands
// 0x2010 to 0x2012, 0x2027 to 0x2029 and 0x204E, and for question 3. Two types and not one: both cross to C, and a struct with
// const arguments, also by an alias, is refused in an exported function's signature (`[unsupported-generic-in-c]`); what they
// share takes the entries, or, to take one out, the octets and the width. The arrays are flat because C's header names them. C's
// structs hold any count, and the functions ask for a small one: a type that borrowed a list with this fact would be no plainer,
// since the functions give lists back, of which each caller would make it anew. Contracts cite `specs/Filters.antt`.
#![tactic(auto)]

mod accept;
mod differ;
mod keys;
mod resolving;

pub use accept::{AcceptList, accept_entries_differ, accept_entry};
pub use resolving::{ResolvingList, identities_differ, identity};
