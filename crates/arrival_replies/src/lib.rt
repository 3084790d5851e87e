// The answer to an arrival in numbers, for a caller in C.
#![tactic(auto)]

ghost use Rattle.std.specs.Prelude.{◌≡◌};
ghost use Rattle.arrival_replies.specs.Answer.{told_of};

use stream_arrival::Arrival;

// An answer in numbers: its kind, the number that goes with it, the buffer.
#[repr(C)]
#[derive(Clone, Copy)]
pub struct Told {
    pub kind: u32,
    pub number: u32,
    pub buffer: u32,
}

// The numbers of an answer.
impl From<Arrival> for Told {
    ghost from_gives = { λ a t. t ≡ told_of a };

    fn from(a: Arrival) -> Told {
        let (kind, number, buffer) = match a {
            Arrival::Refused(why) => (0, u32::from(why), 0),
            Arrival::Ignored => (1, 0, 0),
            Arrival::Damaged => (2, 0, 0),
            Arrival::Dropped => (3, 0, 0),
            Arrival::Stored(k, number) => (4, number, k),
        };
        Told {
            kind,
            number,
            buffer,
        }
    }
}
