// How a frame gets its buffer.
#![tactic(auto)]

ghost use Rattle.std.specs.Prelude.{◌≡◌};
ghost use Rattle.stream_words.specs.Stream.{on_queues};
ghost use Rattle.stream_words.specs.Words.{stream_in};
ghost use Rattle.stream_words.specs.Moves.{filled_oldest};

use stream_words::{HOLDING, MICROSECONDS, NUMBER, SECONDS, Time, USED, Words};

// The oldest that waits for a frame becomes the youngest that holds one.
pub fn fill(s: &mut Words, number: u32, used: u32, time: Time)
    ensures { stream_in s.new ≡ on_queues (λ q. filled_oldest q number used time) (stream_in s.old) }
{
    let d = stream_words::holding(s);
    if stream_words::lined(s) <= d {
        return;
    }
    let p = stream_words::place(s, d);
    let seconds = wire_signed::as_bits(time.seconds);
    let microseconds = wire_signed::as_bits(time.microseconds);
    s[NUMBER + p] = number as u64;
    s[USED + p] = used as u64;
    s[SECONDS + p] = seconds as u64;
    s[MICROSECONDS + p] = microseconds as u64;
    s[HOLDING] = d + 1;
}
