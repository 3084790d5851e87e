// An event on the bench's device: it is said, done, and its answer said. No contract here says more than that the functions are safe and end.
#![tactic(auto)]

use device_state::Device;
use show_lists::Event;
use std::io;
use std::io::Write;

// The picture memory, as long as that of the bench. It is lent with its length in its type: an array just made is too long for the checker
// to count.
pub type Memory = [u8; 1048576];

// The caption memory: two buffers.
pub type Captions = [u8; 8192];

// The two memories go along as two parameters: tried as fields of one struct, they could not both be lent to `answered`, which the borrow checker
// of the proofs does not cover behind a reference.

// What an event asks is done; the number that comes back.
fn done(
    d: &mut Device,
    pictures: &mut Memory,
    captions: &mut Captions,
    c: u8,
    a: &mut [u8],
) -> u32 {
    match c {
        b'B' | b'D' | b'U' | b'O' | b'I' => show_opening::open(d, a),
        b'm' | b'n' | b'M' | b'W' => show_maps::change(d, c, a),
        b'w' | b'h' | b'z' => show_frames::arrive(d, pictures, a),
        b'a' | b'A' | b'i' => show_frames::arrive(d, captions, a),
        b'v' | b'p' | b'#' => show_frames::read(d, c, a),
        _ => show_requests::request(d, c, a),
    }
}

// An event: what it asks is said, then done, and what it is answered is said.
pub fn event(
    out: &mut impl Write,
    d: &mut Device,
    pictures: &mut Memory,
    captions: &mut Captions,
    e: Event,
) -> io::Result<()> {
    let c = e.letter;
    let mut a = [0u8; 204];
    show_calls::asked(out, e, &mut a)?;
    let number = done(d, pictures, captions, c, &mut a);
    show_answers::answered(out, c, number, &a, pictures, captions)
}
