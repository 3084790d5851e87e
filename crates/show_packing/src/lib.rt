// Caption lines packed into a block and read back, and said: each call is a line, with the number that it gives back. No contract here says more than
// that each function is safe and ends. The memory of the lines and that of the block stay two slices: tried as fields of one struct, one could not be
// read while the other is lent to be written, which the borrow checker of the proofs does not cover behind a reference.
#![tactic(auto)]

use std::io;
use std::io::Write;

// What a record says: a service on a line of a field, and the load in its payload.
#[derive(Clone, Copy)]
pub struct Record {
    pub service: u32,
    pub field: u32,
    pub line: u32,
    pub load: u32,
}

// A record. What is reserved, and what lies beyond the payload, is filled with ones.
pub fn put_record(lines: &mut [u8], k: u32, r: Record) {
    let at = (k % 36 * 64) as usize;
    let load = 0xffff_0000 + r.load % 65536;
    wire_store::put_words(lines, at, &[r.service, r.field, r.line, 0xffff_ffff, load]);
}

// Teletext on all lines of both fields, the last one first.
pub fn put_all(lines: &mut [u8]) {
    for k in 0..36 {
        let bit = 35 - k;
        let r = Record {
            service: 1,
            field: bit / 18,
            line: 6 + bit % 18,
            load: 1000 + bit,
        };
        put_record(lines, k, r);
    }
}

// The k-th record, in words.
pub fn said(out: &mut impl Write, lines: &[u8], k: u32) -> io::Result<()> {
    let r = wire_read::part(lines, (k % 36 * 64) as usize, 64);
    let service = wire_read::word_at(r, 0);
    let field = wire_read::word_at(r, 4);
    let line = wire_read::word_at(r, 8);
    let reserved = wire_read::word_at(r, 12);
    let load = wire_read::word_at(r, 16);
    write!(
        out,
        "    service 0x{service:08x}, field {field}, line {line}, "
    )?;
    writeln!(
        out,
        "reserved {reserved}, load and what is behind it 0x{load:08x}"
    )
}

// The first words of a block, the lowest byte of each first.
fn words(out: &mut impl Write, block: &[u8], n: u32) -> io::Result<()> {
    for i in 0..n % 16 {
        let word = wire_read::word_at(block, (i * 4) as usize);
        write!(out, " {:08x}", word.swap_bytes())?;
    }
    writeln!(out)
}

// n records packed into so many bytes, and some words of these shown.
pub fn packed(
    out: &mut impl Write,
    lines: &[u8],
    n: u32,
    block: &mut [u8],
    room: usize,
    shown: u32,
) -> io::Result<()> {
    let Some(lent) = block.get_mut(..room) else {
        return Ok(());
    };
    let number = ioctl_table::number(ivtv::pack(
        wire_read::part(lines, 0, (n % 37 * 64) as usize),
        lent,
    ));
    write!(out, "  pack of {n}: {number}")?;
    words(out, block, shown)
}

// A block of so many bytes read into n records, and up to two of these shown.
pub fn read_back(
    out: &mut impl Write,
    block: &[u8],
    length: usize,
    lines: &mut [u8],
    n: u32,
) -> io::Result<()> {
    let number = match lines.get_mut(..(n % 37 * 64) as usize) {
        Some(lent) => ioctl_table::number(ivtv::unpack(wire_read::part(block, 0, length), lent)),
        None => 0,
    };
    writeln!(out, "  unpack of {n}: {number}")?;
    for k in 0..n.min(2) {
        said(out, lines, k)?;
    }
    Ok(())
}

// A byte of a block, changed.
pub fn put_byte(block: &mut [u8], at: usize, b: u32) {
    if let Some(place) = block.get_mut(at) {
        *place = (b % 256) as u8;
    }
}
