// The calls that take a state, for C and whoever else links an archive: each hands its arguments on to the call of `controller`
// and promises the same. For firmware; `embed/wegrulsta.h` declares them. Contracts cite those of `controller`.
#![tactic(auto)]

mod link_notices;
mod packets;
mod queries;
