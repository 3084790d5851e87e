// Lists of events over one stream of buffers: what each event is answered, an item to an event. The lists stand on standard input, a line with
// a title, a line with events; what goes on past 65,536 bytes is not read. The module `events` has the letter of each event, the module `items` how it is said.
#![tactic(auto)]

mod events;
mod items;

use std::io;
use std::io::{BufWriter, Read, Write};

fn main(rt: HostRuntime) -> io::Result<()> {
    let mut memory = [0u8; 139264];
    let mut lists = Vec::new(rt.alloc());
    rt.reader().take(65536).read_to_end(&mut lists)?;
    let mut out = BufWriter::new(rt.alloc(), io::writer(&rt))?;
    events::table(&mut out, &mut memory, &lists)?;
    out.flush()
}
