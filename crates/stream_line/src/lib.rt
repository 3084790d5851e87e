// What stands at the two ends of a stream's line: the oldest frame, the buffer that has waited longest, and whether there is room.
#![tactic(auto)]

ghost use Rattle.std.specs.Prelude.{◌≡◌, length};
ghost use Rattle.stream_words.specs.Words.{stream_in};
ghost use Rattle.stream_words.specs.Moves.{no_frame, has_room, oldest_of, next_of};

use stream_words::{Filled, Time, Words};

// The oldest frame held, if there is one.
pub fn oldest_outgoing(s: &Words) -> Option<Filled>
    ensures { result ≡ oldest_of (stream_in s.now).queues.outgoing }
{
    if stream_words::holding(s) == 0 {
        return None;
    }
    Some(stream_frames::frame(s, 0))
}

// The buffer that has waited longest for a frame, if there is one.
pub fn oldest_incoming(s: &Words) -> Option<u32>
    ensures { result ≡ next_of (stream_in s.now).queues.incoming }
{
    let d = stream_words::holding(s);
    if stream_words::lined(s) <= d {
        return None;
    }
    Some(stream_words::index(s, d))
}

// How many frames are held.
pub fn outgoing_count(s: &Words) -> u64
    ensures { result ≡ length (stream_in s.now).queues.outgoing }
{
    stream_words::holding(s)
}

// Whether the line takes one more.
pub fn has_room(s: &Words) -> bool
    ensures { result ≡ has_room (stream_in s.now).queues }
{
    stream_words::lined(s) < 32
}

// No frame: an entry of zeros.
pub fn no_frame() -> Filled
    ensures { result ≡ no_frame }
{
    let time = Time {
        seconds: 0,
        microseconds: 0,
    };
    Filled {
        index: 0,
        number: 0,
        used: 0,
        time,
    }
}
