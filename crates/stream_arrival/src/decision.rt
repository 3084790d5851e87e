// What becomes of an arrival, by the stream alone: no byte of a frame is read or written here.
ghost use Rattle.std.specs.Prelude.{◌≡◌};
ghost use Rattle.stream_words.specs.Words.{stream_in};
ghost use Rattle.stream_arrival.specs.Arrivals.{arrived_as, placed_of, accepted_of, arrival_of};

use crate::Arrival;
use ioctl_table::Refusal;
use stream_words::{ACCEPTED, DAMAGED, DROPPED, LENGTH, NEXT_NUMBER, STREAMING, Time, Words};

// How many arrivals a run can accept.
const LIMIT: u64 = 9223372036854775807;

// A whole frame of n bytes goes to the buffer that has waited longest, if one waits. It is counted already.
fn placed(s: &mut Words, number: u32, n: u32, time: Time) -> Arrival
    ensures { arrived_as result (stream_in s.new) ≡ placed_of (stream_in s.old) number n time }
{
    let Some(k) = stream_line::oldest_incoming(s) else {
        s[DROPPED] = s[DROPPED].wrapping_add(1);
        return Arrival::Dropped;
    };
    stream_fill::fill(s, number, n, time);
    Arrival::Stored(k, number)
}

// An arrival that the run accepts: damaged, or whole. It is counted already.
fn accepted(s: &mut Words, number: u32, n: u64, whole: bool, size: u32, time: Time) -> Arrival
    ensures { arrived_as result (stream_in s.new) ≡ accepted_of (stream_in s.old) number n whole size time }
{
    if whole & (n <= size as u64) {
        return placed(s, number, n as u32, time);
    }
    s[DAMAGED] = s[DAMAGED].wrapping_add(1);
    Arrival::Damaged
}

// A frame of n bytes arrives, with a memory of `lent` bytes.
pub fn decide(s: &mut Words, lent: u64, n: u64, whole: bool, size: u32, time: Time) -> Arrival
    ensures { arrived_as result (stream_in s.new) ≡ arrival_of (stream_in s.old) lent n whole size time }
{
    if lent != s[LENGTH] {
        return Arrival::Refused(Refusal::MemoryLength);
    }
    if s[STREAMING] == 0 {
        return Arrival::Ignored;
    }
    let count = s[ACCEPTED];
    if LIMIT <= count {
        return Arrival::Refused(Refusal::RunFull);
    }
    let number = stream_words::low(s[NEXT_NUMBER]);
    s[ACCEPTED] = count + 1;
    s[NEXT_NUMBER] = number.wrapping_add(1) as u64;
    accepted(s, number, n, whole, size, time)
}
