// The one write of an arrival.
ghost use Rattle.std.specs.Prelude.{◌≡◌, length};
ghost use Rattle.stream_words.specs.Words.{stream_in};
ghost use Rattle.stream_arrival.specs.Arrivals.{arrived_as, arrival_of, written_by};

use crate::{Arrival, decision};
use stream_words::{Time, Words};

// The frame is written at the start of the slot that the answer names, and nothing for any other answer.
fn write(a: Arrival, size: u32, memory: &mut [u8], frame: &[u8])
    ensures { memory.new ≡ written_by a size memory.old frame.now }
{
    if let Arrival::Stored(k, _) = a {
        let at = stream_slots::slot_offset(k, size) as usize;
        wire_copy::put_bytes(memory, at, frame);
    }
}

// A frame arrives, with the memory lent.
pub fn arrive(
    s: &mut Words,
    memory: &mut [u8],
    frame: &[u8],
    whole: bool,
    size: u32,
    time: Time,
) -> Arrival
    ensures s_after { arrived_as result (stream_in s.new) ≡ arrival_of (stream_in s.old) (length memory.old) (length frame.now) whole size time }
    ensures memory_after { memory.new ≡ written_by result size memory.old frame.now }
{
    let a = decision::decide(
        s,
        memory.len() as u64,
        frame.len() as u64,
        whole,
        size,
        time,
    );
    write(a, size, memory, frame);
    a
}
