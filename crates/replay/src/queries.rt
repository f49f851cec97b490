// What the four queries find, as octets in the order that record.rt says. For run.rt.
use profile::ControllerRow;
use state::Controller;

// The first two queries are of this handle.
pub fn found(profile: ControllerRow, s: Controller, handle: u16) -> [u8; 7] {
    let connected = controller::has_connection(profile, s, handle).connected;
    let reason = controller::terminating(profile, s, handle).unwrap_or(None);
    let free = controller::free_handle(profile, s).handle;
    let used = controller::acl_buffers_in_use(profile, s).count;
    let [free_low, free_high] = free.to_le_bytes();
    let [used_low, used_high, ..] = used.to_le_bytes();
    [
        u8::from(connected),
        u8::from(reason.is_some()),
        reason.unwrap_or(0),
        free_low,
        free_high,
        used_low,
        used_high,
    ]
}
