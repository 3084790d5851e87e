// Bytes on a writer, for the programs that show something. No contract here says more than that each function is safe and
// ends: nothing can be said of what is written. A write that fails is given back as an error.
#![tactic(auto)]

use std::io;
use std::io::Write;

// One byte, as it stands.
pub fn letter(out: &mut impl Write, c: u8) -> io::Result<()> {
    out.write_all(&[c])
}

// A field that zeros fill up: the bytes before the first zero.
pub fn name(out: &mut impl Write, field: &[u8]) -> io::Result<()> {
    for c in field.iter().take_while(|c| **c != 0) {
        letter(out, *c)?;
    }
    Ok(())
}
