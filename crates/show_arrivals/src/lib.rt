// Frames that arrive at one stream. An arrival is an event with one of these letters:
//   w a whole frame arrives, u one byte short, o one byte long, m a whole one at a time that is none, l with another memory,
//   p one byte short but called whole, g one byte long but called whole
// No contract here says more than that each function is safe and ends.
#![tactic(auto)]

use arrival_replies::Told;
use stream_words::{Time, Words};

// An event on a stream: its letter, which is that of the lists, and its number, which is the microseconds of an arrival; the size of a frame, the
// seconds on the clock, and how much of the memory there is.
#[derive(Clone, Copy)]
pub struct Event {
    pub letter: u8,
    pub number: u32,
    pub size: u32,
    pub clock: u32,
    pub length: u32,
}

// How a frame arrives. At a time that is none it arrives as a whole one does.
#[derive(Clone, Copy)]
pub enum Arrival {
    Whole,
    Short,
    Long,
    OtherMemory,
    CalledShort,
    CalledLong,
}

impl Arrival {
    // The arrival of this letter.
    pub fn of(letter: u8) -> Option<Arrival> {
        match letter {
            b'w' | b'm' => Some(Arrival::Whole),
            b'u' => Some(Arrival::Short),
            b'o' => Some(Arrival::Long),
            b'l' => Some(Arrival::OtherMemory),
            b'p' => Some(Arrival::CalledShort),
            b'g' => Some(Arrival::CalledLong),
            _ => None,
        }
    }

    // How long the frame is.
    fn length(self, size: u32) -> u32 {
        match self {
            Arrival::Whole | Arrival::OtherMemory => size,
            Arrival::Short | Arrival::CalledShort => size.wrapping_sub(1),
            Arrival::Long | Arrival::CalledLong => size.wrapping_add(1),
        }
    }

    // Whether a frame is whole goes by the rule of pictures, or by word of the caller.
    fn whole(self, bytes: u64, size: u32, time: Time) -> bool {
        matches!(self, Arrival::CalledShort | Arrival::CalledLong)
            || picture_rules::whole_picture(bytes, size, time)
    }

    // How much of the memory is lent.
    fn room(self, length: u32) -> usize {
        match self {
            Arrival::OtherMemory => 100,
            _ => length as usize,
        }
    }
}

// What became of a frame is written as words, and the kind of that is given back as a digit.
fn taken(
    s: &mut Words,
    memory: &mut [u8],
    frame: &[u8],
    kind: Arrival,
    e: Event,
    a: &mut [u8],
) -> u8 {
    let time = stream_frames::time_of(e.clock, e.number);
    let called = kind.whole(frame.len() as u64, e.size, time);
    let told = Told::from(stream_arrival::arrive(s, memory, frame, called, e.size, time));
    wire_store::put_words(a, 0, &[told.number, told.buffer]);
    (told.kind % 5 + 48) as u8
}

// A frame arrives. Its bytes go by its number.
pub fn arrive(s: &mut Words, memory: &mut [u8], kind: Arrival, e: Event, a: &mut [u8]) -> u8 {
    let mut space = [0u8; 8193];
    show_pictures::fill(&mut space, e.number);
    let frame = wire_read::part(&space, 0, kind.length(e.size) as usize);
    let n = kind.room(e.length).min(memory.len());
    taken(s, &mut memory[..n], frame, kind, e, a)
}
