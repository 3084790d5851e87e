// The bench's device, opened with its sheet as it is, damaged, or with odd tops. No contract here says more than that the function is safe and ends.
#![tactic(auto)]

use device_state::Device;

// The bench sheet, or the one with odd tops.
fn sheet(odd: u32) -> bench_sheet::Bytes {
    if odd == 1 {
        bench_sheet::odd_sheet()
    } else {
        bench_sheet::sheet()
    }
}

// A device is opened: a word of the argument says how long its picture memory is, the next how much of the sheet is lent, the next is the
// sheet's least width, the next the length of its caption memory, the last whether the sheet has odd tops. A refused opening leaves it closed.
pub fn open(d: &mut Device, a: &[u8]) -> u32 {
    let mut bytes = sheet(wire_read::word_at(a, 16));
    wire_store::put_word(&mut bytes, 188, wire_read::word_at(a, 8));
    let lent = wire_read::part(&bytes, 0, wire_read::word_at(a, 4) as usize);
    ioctl_table::number(device_opening::open(
        d,
        lent,
        wire_read::word_at(a, 0) as u64,
        wire_read::word_at(a, 12) as u64,
    ))
}
