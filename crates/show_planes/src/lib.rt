// The planes of a YU12 frame of 304x224, said a line to a plane. Each word of the frame tells its own place, so that a plane's first word
// tells where it starts; the second word of each plane is its name. No contract here says more than that each function is safe and ends.
#![tactic(auto)]

use format_rules::Format;
use std::io;
use std::io::Write;

fn one(out: &mut impl Write, alignment: u32, frame: &[u8], k: u32) -> io::Result<()> {
    let f = Format {
        width: 304,
        height: 224,
        code: format_rules::YU12,
    };
    let (p, number) = match plane_rules::plane(f, alignment, frame, k) {
        Ok(p) => (p, 0),
        Err(why) => (wire_read::part(frame, 0, 0), u32::from(why)),
    };
    write!(out, "plane {k} of {}: {number}, ", frame.len())?;
    show_text::name(out, wire_read::part(p, 4, 4))?;
    let start = wire_read::word_at(p, 0);
    writeln!(out, "from {start}, length {}", p.len())
}

// Y, Cb and Cr, each with a space after it.
fn named(frame: &mut [u8; 107520]) {
    show_pictures::mark(frame);
    wire_store::put_word(frame, 4, 0x2059);
    wire_store::put_word(frame, 71684, 0x20_6243);
    wire_store::put_word(frame, 89604, 0x20_7243);
}

// All of a frame, one that it has not, and one of a frame that is a byte short.
fn all(out: &mut impl Write, alignment: u32, frame: &[u8; 107520]) -> io::Result<()> {
    for k in 0..4 {
        one(out, alignment, frame, k)?;
    }
    one(out, alignment, wire_read::part(frame, 0, 107519), 0)
}

pub fn planes(out: &mut impl Write, alignment: u32) -> io::Result<()> {
    let mut frame = [0u8; 107520];
    named(&mut frame);
    all(out, alignment, &frame)
}
