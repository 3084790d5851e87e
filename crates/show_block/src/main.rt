// Load readings inside the film: caption lines packed into a block and read back, and what is refused. Each call is a line, with the number
// that it gives back; behind it stand the first words of the block, byte by byte, or a line for each record. What is done is a table.
#![tactic(auto)]

use show_packing::Record;
use std::io;
use std::io::{BufWriter, Write};

#[derive(Clone, Copy)]
enum Step {
    // What is said before a part of the table.
    Title(&'static str),
    // A record: its place, service, field, line and load.
    Put(u32, u32, u32, u32, u32),
    // A record on each of the 36 lines.
    PutAll,
    // A byte of the block: its place, its value.
    PutByte(usize, u32),
    // A record shown: its place.
    Say(u32),
    // How many records are packed, the bytes of the block, and how many words of it are shown.
    Pack(u32, usize, u32),
    // The bytes of the block that is read back, and how many records.
    ReadBack(usize, u32),
}

const STEPS: [Step; 39] = [
    Step::Title("A load reading on line 21"),
    Step::Put(0, 4096, 0, 21, 250),
    Step::Say(0),
    Step::Pack(1, 55, 14),
    Step::ReadBack(55, 1),
    Step::Title("Both fields, the second given first"),
    Step::Put(0, 4096, 1, 21, 251),
    Step::Put(1, 4096, 0, 21, 250),
    Step::Pack(2, 98, 15),
    Step::ReadBack(98, 2),
    Step::Title(
        "Refused: an output that is too long, a line twice, then a field, a line and a service that do not exist",
    ),
    Step::Pack(2, 99, 0),
    Step::Put(1, 4096, 0, 21, 252),
    Step::Pack(2, 98, 0),
    Step::Put(1, 4096, 2, 21, 252),
    Step::Pack(2, 98, 0),
    Step::Put(1, 4096, 0, 24, 252),
    Step::Pack(2, 98, 0),
    Step::Put(1, 4097, 1, 21, 252),
    Step::Pack(2, 98, 0),
    Step::Title("All 36 lines, the last given first"),
    Step::PutAll,
    Step::Pack(36, 1552, 4),
    Step::ReadBack(1552, 36),
    Step::Title("No line; refused: a bit without its line"),
    Step::Pack(0, 12, 3),
    Step::ReadBack(12, 0),
    Step::PutByte(4, 1),
    Step::ReadBack(12, 0),
    Step::Title("One line; refused: fill bytes, a byte beyond the payload, another opening"),
    Step::Put(0, 4096, 0, 21, 250),
    Step::Pack(1, 55, 3),
    Step::ReadBack(56, 1),
    Step::PutByte(15, 1),
    Step::ReadBack(55, 1),
    Step::PutByte(15, 0),
    Step::ReadBack(55, 1),
    Step::PutByte(3, 49),
    Step::ReadBack(55, 1),
];

fn done(out: &mut impl Write, lines: &mut [u8], block: &mut [u8], step: Step) -> io::Result<()> {
    match step {
        Step::Title(t) => writeln!(out, "{t}")?,
        Step::Put(k, service, field, line, load) => {
            let r = Record {
                service,
                field,
                line,
                load,
            };
            show_packing::put_record(lines, k, r);
        }
        Step::PutAll => show_packing::put_all(lines),
        Step::PutByte(at, b) => show_packing::put_byte(block, at, b),
        Step::Say(k) => show_packing::said(out, lines, k)?,
        Step::Pack(n, room, shown) => show_packing::packed(out, lines, n, block, room, shown)?,
        Step::ReadBack(length, n) => show_packing::read_back(out, block, length, lines, n)?,
    }
    Ok(())
}

fn main(rt: HostRuntime) -> io::Result<()> {
    let mut out = BufWriter::new(rt.alloc(), io::writer(&rt))?;
    let mut lines = [0u8; 2304];
    let mut block = [0u8; 1552];
    for step in STEPS {
        done(&mut out, &mut lines, &mut block, step)?;
    }
    out.flush()
}
