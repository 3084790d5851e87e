// Lines about calls, from tables. A line of a table has a letter, and what is said; between its words stand fields, which are read from the
// bytes of the call's argument. No contract here says more than that each function is safe and ends.
#![tactic(auto)]

use std::io;
use std::io::Write;

// The seconds, and the microseconds with all their six digits.
fn time(out: &mut impl Write, a: &[u8]) -> io::Result<()> {
    let seconds = wire_read::word_at(a, 0);
    let micros = wire_read::word_at(a, 4) % 1000000;
    write!(out, "{seconds}.{micros:06}")
}

// A kind is the letter that tables have for it. It is looked at here alone: an enum of kinds would be a second match before this one.
fn field(out: &mut impl Write, kind: u8, a: &[u8], at: usize) -> io::Result<()> {
    let word = wire_read::word_at(a, at);
    match kind {
        b'd' => write!(out, "{word}"),
        b'x' => write!(out, "0x{word:08x}"),
        b'h' => write!(out, "0x{:08x}", word % 65536),
        b'i' => write!(out, "{}", word.cast_signed()),
        b's' => show_text::name(out, wire_read::part(a, at, 32)),
        b'c' => out.write_all(wire_read::part(a, at, 4)),
        _ => time(out, wire_read::part(a, at, 8)),
    }
}

// What stands between one % and the next: the kind of a field, its place, and words. A kind with nothing behind it is answered, since the % that
// follows is its place; and !, behind which nothing of the line is said. A kind of 0 is no field.
fn part_said(out: &mut impl Write, part: &[u8], a: &[u8]) -> io::Result<Option<u8>> {
    match part {
        [] => Ok(None),
        [b'!', ..] => Ok(Some(b'!')),
        [0, words @ ..] => {
            out.write_all(words)?;
            Ok(None)
        }
        [kind] => Ok(Some(*kind)),
        [kind, at, words @ ..] => {
            field(out, *kind, a, *at as usize)?;
            out.write_all(words)?;
            Ok(None)
        }
    }
}

// A field whose place is the % before a part, and the words of the part.
fn placed(out: &mut impl Write, kind: u8, part: &[u8], a: &[u8]) -> io::Result<()> {
    field(out, kind, a, b'%' as usize)?;
    out.write_all(part)
}

// The words of a line, and its fields between them.
fn said(out: &mut impl Write, line: &[u8], a: &[u8]) -> io::Result<()> {
    let mut parts = line.split(|b| *b == b'%');
    if let Some(words) = parts.next() {
        out.write_all(words)?;
    }
    let mut open: Option<u8> = None;
    for part in parts {
        open = match open {
            None => part_said(out, part, a)?,
            Some(b'!') => open,
            Some(kind) => {
                placed(out, kind, part, a)?;
                None
            }
        };
    }
    Ok(())
}

// What the line of this letter says. After % stands the kind of a field, and after that its place:
//   d a number, x one in hexadecimal, h one of 16 bits in hexadecimal, i a signed one, s a name up to its zero byte, c a code of four letters, t a time
// No place is the number of a line's end. A table is bytes, and no &str: `told` takes any bytes, and the letters come as bytes.
pub fn told(out: &mut impl Write, table: &[u8], letter: u8, a: &[u8]) -> io::Result<()> {
    for line in table.split(|b| *b == b'\n') {
        if let Some(words) = line.strip_prefix(&[letter]) {
            said(out, words, a)?;
        }
    }
    Ok(())
}
