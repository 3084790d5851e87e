// A request to a device. No contract here says more than that the function is safe and ends.
#![tactic(auto)]

use device_state::Device;

// The request of this letter, with as much of the argument lent as a client lends; the number that the client is given.
pub fn request(d: &mut Device, c: u8, a: &mut [u8]) -> u32 {
    ioctl_table::number(device_requests::request(
        &d.sheet,
        &mut d.setup,
        &mut d.values,
        &mut d.services,
        &mut d.video,
        &mut d.captions,
        show_calls::word(c),
        show_calls::lent(a, c),
    ))
}
