// The events, by their letters, each with a number where it has one: those of `show_arrivals`, where the number is that of the arrival;
// those of `show_buffers`; and
//   z another frame size, c another second on the clock, k another length of the memory, at the start of a list
use crate::items;
use show_arrivals::{Arrival, Event};
use show_lists::{Item, Reading};
use std::io;
use std::io::Write;
use stream_words::Words;

// The picture memory has two slots more than there are buffers at most. It is lent with its length in its type: an array just made is too
// long for the checker to count.
type Memory = [u8; 139264];

// The end of a list: the next one begins with frames of 64 bytes, five seconds on the clock, and the whole memory.
const END: Event = Event {
    letter: b'\n',
    number: 0,
    size: 64,
    clock: 5,
    length: 139264,
};

// The next event, after the one before it, which leaves the size of a frame, the clock and the length of the memory.
fn next(before: Event, item: Item) -> Event {
    let Item::Event(read) = item else {
        return END;
    };
    let number = read.number;
    let e = Event {
        letter: read.letter,
        number,
        ..before
    };
    match read.letter {
        b'z' => Event { size: number, ..e },
        b'c' => Event { clock: number, ..e },
        b'k' => Event {
            length: number,
            ..e
        },
        _ => e,
    }
}

// An event is done. The letter of its answer is given back, where it has one.
fn done(s: &mut Words, memory: &mut Memory, e: Event, a: &mut [u8]) -> Option<u8> {
    match Arrival::of(e.letter) {
        Some(kind) => Some(show_arrivals::arrive(s, memory, kind, e, a)),
        None => show_buffers::event(s, memory, e, a),
    }
}

// What an event asks is said, and then what it is answered. An argument has its number first, and the one kind of memory where REQBUFS has
// it and where a buffer has it.
fn event(out: &mut impl Write, s: &mut Words, memory: &mut Memory, e: Event) -> io::Result<()> {
    let mut a = [0u8; 68];
    wire_store::put_words(&mut a, 0, &[e.number, 1, 1]);
    wire_store::put_word(&mut a, 48, 1);
    items::told(out, e.letter, &a)?;
    if let Some(answer) = done(s, memory, e, &mut a) {
        items::told(out, answer, &a)?;
    }
    Ok(())
}

// The lists of a table, one after the other. A list has a stream of its own.
pub(crate) fn table(out: &mut impl Write, memory: &mut Memory, lists: &[u8]) -> io::Result<()> {
    let mut s = stream_run::fresh(139264);
    let mut e = END;
    let mut reading = Reading::new();
    for b in lists {
        if let Some(item) = reading.after(out, *b)? {
            e = next(e, item);
            event(out, &mut s, memory, e)?;
        }
    }
    Ok(())
}
