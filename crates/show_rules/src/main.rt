// Controls, sizes, crop and planes of the bench sheet: what each layer answers, a line to an answer.
#![tactic(auto)]

mod controls;
mod sizes;

use std::io;
use std::io::{BufWriter, Write};

fn main(rt: HostRuntime) -> io::Result<()> {
    let mut out = BufWriter::new(rt.alloc(), io::writer(&rt))?;
    let s = bench_sheet::sheet();
    controls::cases(&mut out, &s)?;
    let alignment = sheet_geometry::line_alignment(&s);
    sizes::negotiated(&mut out, &s, alignment)?;
    sizes::cropped(&mut out, &s)?;
    sizes::opened(&mut out)?;
    show_planes::planes(&mut out, alignment)?;
    out.flush()
}
