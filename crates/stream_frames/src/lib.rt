// Times, and the frames that stand in the line of a stream.
#![tactic(auto)]

ghost use Rattle.std.specs.Prelude.{◌≡◌};
ghost use Rattle.stream_words.specs.Words.{time_of, frame_in};

use stream_words::{Filled, MICROSECONDS, NUMBER, SECONDS, Time, USED, Words};

// A time from the 32 bits of each of its numbers.
pub fn time_of(seconds: u32, microseconds: u32) -> Time
    ensures { result ≡ time_of seconds microseconds }
{
    Time {
        seconds: wire_signed::as_signed(seconds),
        microseconds: wire_signed::as_signed(microseconds),
    }
}

// The frame in the ith in line.
pub fn frame(s: &Words, i: u64) -> Filled
    ensures { result ≡ frame_in s.now i }
{
    let index = stream_words::index(s, i);
    let p = stream_words::place(s, i);
    let time = time_of(
        stream_words::low(s[SECONDS + p]),
        stream_words::low(s[MICROSECONDS + p]),
    );
    Filled {
        index,
        number: stream_words::low(s[NUMBER + p]),
        used: stream_words::low(s[USED + p]),
        time,
    }
}
