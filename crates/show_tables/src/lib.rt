// Lists of events on the bench's device, from a table. No contract here says more than that the function is safe and ends.
#![tactic(auto)]

use show_events::{Captions, Memory};
use show_lists::{Item, Reading};
use std::io;
use std::io::Write;

// The lists of a table, one after the other. A list starts with an opening; before the first, the device is one that no sheet opened. The table is
// bytes, and no &str: any bytes are taken.
pub fn table(
    out: &mut impl Write,
    pictures: &mut Memory,
    captions: &mut Captions,
    lists: &[u8],
) -> io::Result<()> {
    let mut d = device_opening::closed_device();
    let mut reading = Reading::new();
    for b in lists {
        if let Some(Item::Event(e)) = reading.after(out, *b)? {
            if 32 < e.letter {
                show_events::event(out, &mut d, pictures, captions, e)?;
            }
        }
    }
    Ok(())
}
