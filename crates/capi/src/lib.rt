// Calls for C, Rust and whoever else links an archive, of what stands beside the controller: the readers and writers of `hci`,
// the stream of `h4`, and AES. Each hands its arguments on to the Rattle function of the same work and promises the same;
// `capi_c` exports them, `controller_c` the calls that take a state: a crate is a library for Rattle or one for C, and these
// calls are both. For firmware; `embed/wegrulsta.h` declares them. Contracts cite those of `hci`, `h4` and `aes`, and `specs/`
// where an answer has another form.
#![tactic(auto)]

mod cipher;
mod packets;
mod stream;

pub use cipher::wegrulsta_encrypt;
pub use packets::{
    MaskHas, ReadAcl, ReadCommand, Wrote, wegrulsta_is_async, wegrulsta_mask_has, wegrulsta_opcode,
    wegrulsta_read_acl, wegrulsta_read_command, wegrulsta_set_bit, wegrulsta_write_acl,
    wegrulsta_write_command_complete, wegrulsta_write_command_status,
    wegrulsta_write_completed_packets, wegrulsta_write_event, wegrulsta_write_le_meta,
};
pub use stream::{
    PacketLength, StreamFed, wegrulsta_packet_length, wegrulsta_stream_feed,
    wegrulsta_stream_packet, wegrulsta_stream_start,
};
