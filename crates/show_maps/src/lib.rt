// A client maps a buffer of a device, or unmaps it, and is given a number. No contract here says more than that each function is safe and ends.
#![tactic(auto)]

use device_state::Device;
use stream_maps::Change;

// A map or an unmap of the type, the offset and the length that stand where QUERYBUF tells them.
fn changed(d: &mut Device, c: u8, a: &[u8]) -> u32 {
    let change = match c {
        b'm' | b'M' => Change::Map,
        _ => Change::Unmap,
    };
    ioctl_table::number(device_maps::change(
        &d.setup,
        &d.services,
        &mut d.video,
        &mut d.captions,
        change,
        wire_read::word_at(a, 4),
        wire_read::word_at(a, 52),
        wire_read::word_at(a, 56),
    ))
}

// The event of this letter. A client that knows a buffer by its index asks QUERYBUF before it maps; one that has an offset and a length does not.
pub fn change(d: &mut Device, c: u8, a: &mut [u8]) -> u32 {
    match c {
        b'm' | b'n' => {
            show_requests::request(d, b'b', a);
        }
        _ => (),
    }
    changed(d, c, a)
}
