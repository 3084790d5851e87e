// Where a buffer stands in the line.
#![tactic(auto)]

ghost use Rattle.std.specs.Prelude.{◌≡◌, ◌||◌, ◌≤◌};
ghost use Rattle.stream_words.specs.Words.{stream_in};
ghost use Rattle.stream_words.specs.Moves.{is_incoming, is_outgoing, standing_of};
ghost use Rattle.stream_search.specs.Found.{FoundIn, FoundAt};

use stream_words::{HEAD, INDEX, Standing, Words};

// The first place of the ring, from one place on and below another, that buffer k stands at; the other place if there is none.
fn first_place(s: &Words, from: u64, to: u64, k: u32) -> u64
    requires from_le_to { from ≤ to }
    requires to_bound { to ≤ 32 }
    ensures { FoundIn s.now k from to result }
{
    for p in from..to {
        if stream_words::low(s[INDEX + p as usize]) == k {
            return p;
        }
    }
    to
}

// Where in the line buffer k stands first; behind its end if it does not. The line is looked through as one straight part of the ring, or
// as two where it goes past the ring's end: a remainder in the loop would cost more than all the rest.
fn find(s: &Words, k: u32) -> u64
    ensures { FoundAt s.now k result }
{
    let h = s[HEAD] % 32;
    let n = stream_words::lined(s);
    if h + n <= 32 {
        return first_place(s, h, h + n, k) - h;
    }
    let p = first_place(s, h, 32, k);
    if p < 32 {
        return p - h;
    }
    first_place(s, 0, h + n - 32, k) + (32 - h)
}

// Whether buffer k is in one of the queues.
pub fn in_line(s: &Words, k: u32) -> bool
    ensures { result ≡ (is_incoming (stream_in s.now).queues k || is_outgoing (stream_in s.now).queues k) }
{
    find(s, k) < stream_words::lined(s)
}

// Which queue buffer k is in, and the frame that it holds.
pub fn standing_of(s: &Words, k: u32) -> Standing
    ensures { result ≡ standing_of (stream_in s.now).queues k }
{
    let i = find(s, k);
    if i < stream_words::holding(s) {
        return Standing::Outgoing(stream_frames::frame(s, i));
    }
    if i < stream_words::lined(s) {
        return Standing::Incoming;
    }
    Standing::Dequeued
}
