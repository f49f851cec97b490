// The calls of `capi` for C and whoever else links an archive: each hands its arguments on and promises the same. For firmware;
// `embed/wegrulsta.h` declares them. Contracts cite those of `capi`.
#![tactic(auto)]

mod cipher;
mod packets;
mod stream;
