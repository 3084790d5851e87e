// Setting the bench's one control, and looking it up.
use control_value_rules::Setting;
use ioctl_table::Refusal;
use std::io;
use std::io::Write;

const CONTRAST: u32 = 0x0098_0901;

// Set in the id of a look-up, it asks for the next higher id.
const NEXT: u32 = 0x8000_0000;

fn outcome(out: &mut impl Write, made: Result<Setting, Refusal>) -> io::Result<()> {
    match made {
        Ok(Setting::Stored(_, v)) => write!(out, "stored as {}", v.cast_signed()),
        Ok(Setting::Pressed) => write!(out, "pressed"),
        Err(why) => write!(out, "refused with {}", u32::from(why)),
    }
}

fn set(out: &mut impl Write, s: &[u8; 324], id: u32, value: u32) -> io::Result<()> {
    write!(out, "0x{id:08x} set to {}: ", value.cast_signed())?;
    outcome(out, control_value_rules::set(s, id, value))?;
    writeln!(out)
}

fn look_up(out: &mut impl Write, s: &[u8; 324], id: u32) -> io::Result<()> {
    let count = control_place_rules::count(s);
    let place = control_place_rules::queried(s, id).unwrap_or(count);
    writeln!(out, "0x{id:08x} looked up: place {place} of {count}")
}

// A value below zero is given as its 32 bits. What is not found has the place behind the last.
pub(crate) fn cases(out: &mut impl Write, s: &[u8; 324]) -> io::Result<()> {
    set(out, s, CONTRAST, 11)?;
    set(out, s, CONTRAST, 0xffff_fff8)?;
    set(out, s, CONTRAST, 0)?;
    set(out, s, CONTRAST, 0xffff_fff5)?;
    set(out, s, CONTRAST - 1, 0)?;
    look_up(out, s, CONTRAST)?;
    look_up(out, s, NEXT + (CONTRAST - 1))?;
    look_up(out, s, NEXT + CONTRAST)
}
