// A table of lists, read byte by byte: a line with the title of a list, a line with its events. An event is a letter, with a number right
// before it where it has one, or two with an x between them; a / is a new line. A title is said as it stands. No contract here says more than
// that each function is safe and ends.
#![tactic(auto)]

use std::io;
use std::io::Write;

// An event: its letter, which is the table's own, and its two numbers, of 32 bits each. One that is not there is 0.
#[derive(Clone, Copy)]
pub struct Event {
    pub letter: u8,
    pub first: u32,
    pub number: u32,
}

// What ends with a byte of a table: an event, or a list.
#[derive(Clone, Copy)]
pub enum Item {
    Event(Event),
    List,
}

// The numbers of the event that is being read. Behind a minus the second goes below zero.
#[derive(Clone, Copy)]
pub struct Numbers {
    pub first: u32,
    pub number: u32,
    pub minus: bool,
}

// Nothing of an event is read yet.
const NONE: Numbers = Numbers {
    first: 0,
    number: 0,
    minus: false,
};

impl Numbers {
    // After one more digit.
    fn grown(self, digit: u32) -> Numbers {
        let tenfold = self.number.wrapping_mul(10);
        let number = if self.minus {
            tenfold.wrapping_sub(digit)
        } else {
            tenfold.wrapping_add(digit)
        };
        Numbers { number, ..self }
    }
}

#[derive(Clone, Copy)]
pub enum Place {
    Title,
    Events(Numbers),
}

// How far a table is read: where, and how many events d the list has had.
#[derive(Clone, Copy)]
pub struct Reading {
    pub place: Place,
    pub counted: u32,
}

impl Reading {
    // A table begins with a title.
    pub fn new() -> Reading {
        Reading {
            place: Place::Title,
            counted: 0,
        }
    }

    // The letter of an event. The number of the event # is how many events d there were.
    fn ended(&mut self, read: Numbers, letter: u8) -> Event {
        self.place = Place::Events(NONE);
        if letter == b'd' {
            self.counted = self.counted.wrapping_add(1);
        }
        Event {
            letter,
            first: read.first,
            number: if letter == b'#' {
                self.counted
            } else {
                read.number
            },
        }
    }

    // A byte of an event: of its numbers, or its letter. A zero byte is neither.
    fn event(&mut self, read: Numbers, c: u8) -> Option<Event> {
        let numbers = match c {
            0 => read,
            b'-' => Numbers {
                minus: true,
                ..read
            },
            b'x' => Numbers {
                first: read.number,
                ..NONE
            },
            b'0'..=b'9' => read.grown((c - b'0') as u32),
            _ => return Some(self.ended(read, c)),
        };
        self.place = Place::Events(numbers);
        None
    }

    // The next byte of a table, and what ends with it. The bytes of a title go to the writer.
    pub fn after(&mut self, out: &mut impl Write, c: u8) -> io::Result<Option<Item>> {
        match (self.place, c) {
            (Place::Title, b'\n') => {
                show_text::letter(out, c)?;
                self.place = Place::Events(NONE);
            }
            (Place::Title, _) => show_text::letter(out, c)?,
            (Place::Events(_), b'\n') => {
                show_text::letter(out, c)?;
                *self = Reading::new();
                return Ok(Some(Item::List));
            }
            (Place::Events(_), b'/') => {
                show_text::letter(out, b'\n')?;
                self.place = Place::Events(NONE);
            }
            (Place::Events(_), b' ') => self.place = Place::Events(NONE),
            (Place::Events(read), _) => return Ok(self.event(read, c).map(Item::Event)),
        }
        Ok(None)
    }
}
