// How the answer of an event is said, by the event's letter, from the words of its argument: the crate `show_calls` has the letters. No contract
// here says more than that each function is safe and ends.
#![tactic(auto)]

use std::io;
use std::io::Write;

// What is answered: a line for each letter of a call, for the kinds 0 to 4 of what becomes of an arrival, for the verdicts 0 to 3,
// and for the flags of a buffer that is mapped.
fn told(out: &mut impl Write, letter: u8, a: &[u8]) -> io::Result<()> {
    show_lines::told(
        out,
        b"c, driver %s\x00, card %s\x10, bus %s\x30, version %x\x50, capabilities %x\x54\n\
        e, %c\x2c, %s\x0c, flags %d\x08\n\
        g, %c\x0c %d\x04x%d\x08 line %d\x14 size %d\x18\n\
        f, %c\x0c %d\x04x%d\x08 line %d\x14 size %d\x18\n\
        P, %c\x0c %d\x04x%d\x08 line %d\x14 size %d\x18\n\
        N, %c\x0c %d\x04x%d\x08 line %d\x14 size %d\x18\n\
        t, %c\x0c %d\x04x%d\x08 line %d\x14 size %d\x18\n\
        T, %c\x0c %d\x04x%d\x08 line %d\x14 size %d\x18\n\
        F, services %h\x04, line 21 %h\x30 and %h\x60, io size %d\x68\n\
        E, services %h\x04, line 21 %h\x30 and %h\x60, io size %d\x68\n\
        V, services %h\x00, line 7 %h\x10 and %h\x40, line 16 %h\x22 and %h\x52, line 21 %h\x2c and %h\x5c, line 23 %h\x30 and %h\x60\n\
        r, %d\x00 buffers\n\
        b, flags %d\x0c, number %d\x2c, %d\x08 bytes, time %t\x14, offset %d\x34, length %d\x38\n\
        d, buffer %d\x00, number %d\x2c, %d\x08 bytes, time %t\x14, picture \n\
        L, buffer %d\x00, number %d\x2c, %d\x08 bytes, time %t\x14, load \n\
        G, value %i\x04\n\
        S, value %i\x04\n\
        Q, id %x\x00, type %d\x04, %s\x08, minimum %i\x28, maximum %i\x2c, \
        step %i\x30, default %i\x34, flags %d\x38\n\
        C, bounds left %i\x04 top %i\x08 width %i\x0c height %i\x10, default left %i\x14 top %i\x18 width %i\x1c height %i\x20, \
        pixel aspect %d\x24/%d\x28\n\
        k, left %i\x04 top %i\x08 width %i\x0c height %i\x10\n\
        p, start %d\x04 length %d\x08\n\
        0: refused %d\x00\n\
        1: ignored\n\
        2: damaged\n\
        3: dropped\n\
        4: stored in %d\x04 as number %d\x00\n\
        5RUNNING\n\
        6BLANK\n\
        7GAPS\n\
        8COMPLETE\n\
        9, flags %d\x0c\n",
        letter,
        a,
    )
}

// The letter of the answer: of captions it is that of their format, and that of the load.
fn letter(c: u8, a: &[u8]) -> u8 {
    match c {
        b'g' if wire_read::word_at(a, 0) == 6 => b'F',
        b'd' if wire_read::word_at(a, 4) == 6 => b'L',
        _ => c,
    }
}

// Whether the picture that is handed over stands in memory at the offset that the answer tells; it goes by the second that it tells.
fn picture(out: &mut impl Write, a: &[u8], memory: &[u8]) -> io::Result<()> {
    if show_pictures::stands_at(
        memory,
        wire_read::word_at(a, 52) as usize,
        wire_read::word_at(a, 8) as usize,
        wire_read::word_at(a, 20),
    ) {
        write!(out, "intact")
    } else {
        write!(out, "SPOILT")
    }
}

// The load reading of the captions that are handed over: the first two bytes that the first line carries.
fn load(out: &mut impl Write, a: &[u8], memory: &[u8]) -> io::Result<()> {
    let line = wire_read::part(memory, wire_read::word_at(a, 52) as usize, 64);
    write!(out, "{}", wire_read::word_at(line, 16) % 65536)
}

// Whether a buffer that is handed in or over is told as mapped: only then are its flags said.
fn mapped(c: u8, a: &[u8]) -> bool {
    matches!(c, b'q' | b'd') && wire_read::word_at(a, 12) % 2 == 1
}

// The number that came back, and the answer of an accepted call, with the memories of pictures and of captions. These are two parameters as they
// are in `show_events`, which says why.
fn called(
    out: &mut impl Write,
    c: u8,
    number: u32,
    a: &[u8],
    pictures: &[u8],
    captions: &[u8],
) -> io::Result<()> {
    write!(out, ": {number}")?;
    if number != 0 {
        return Ok(());
    }
    let answer = letter(c, a);
    told(out, answer, a)?;
    match answer {
        b'd' => picture(out, a, pictures)?,
        b'L' => load(out, a, captions)?,
        _ => (),
    }
    if mapped(c, a) {
        told(out, b'9', a)?;
    }
    Ok(())
}

// What becomes of an arrival, and a verdict, come as the numbers that C is given; their lines have digits for letters.
pub fn answered(
    out: &mut impl Write,
    c: u8,
    number: u32,
    a: &[u8],
    pictures: &[u8],
    captions: &[u8],
) -> io::Result<()> {
    match c {
        b'#' => (),
        b'w' | b'h' | b'z' | b'a' | b'A' | b'i' => told(out, (number % 5 + 48) as u8, a)?,
        b'v' => told(out, (number % 4 + 53) as u8, a)?,
        _ => called(out, c, number, a, pictures, captions)?,
    }
    writeln!(out)
}
