// Sheets that break one rule each, and good ones: what the check says of each, a line to a sheet. The table of them is the standard
// input, and says how it is read; what goes on past 65,536 bytes is not read.
#![tactic(auto)]

mod cases;

use std::io;
use std::io::{BufWriter, Read, Write};

fn main(rt: HostRuntime) -> io::Result<()> {
    let mut lines = Vec::new(rt.alloc());
    rt.reader().take(65536).read_to_end(&mut lines)?;
    let mut out = BufWriter::new(rt.alloc(), io::writer(&rt))?;
    let mut space = [0u8; 3000];
    cases::table(&mut out, &mut space, &lines)?;
    out.flush()
}
