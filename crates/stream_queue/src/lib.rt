// The two calls of a client that move one buffer: handed in, and handed over when it holds a frame.
#![tactic(auto)]

ghost use Rattle.std.specs.Prelude.{◌≡◌};
ghost use Rattle.stream_words.specs.Words.{stream_in};
ghost use Rattle.stream_run.specs.Replies.{done, returned};
ghost use Rattle.stream_run.specs.Switches.{answers};
ghost use Rattle.stream_queue.specs.Queueing.{enqueue_of, dequeue_of};

use ioctl_table::Refusal;
use stream_words::{Filled, GRANTED, HANDED, STREAMING, Words};

// Buffer k is handed in.
pub fn enqueue(s: &mut Words, k: u32) -> Result<(), Refusal>
    ensures { answers (done result) (stream_in s.new) ≡ enqueue_of (stream_in s.old) k }
{
    if s[GRANTED] <= k as u64 {
        return Err(Refusal::NoSuchIndex);
    }
    if stream_search::in_line(s, k) {
        return Err(Refusal::NotDequeued);
    }
    stream_moves::push(s, k);
    Ok(())
}

// The oldest filled buffer is handed over.
pub fn dequeue(s: &mut Words) -> Result<Filled, Refusal>
    ensures { answers (returned result) (stream_in s.new) ≡ dequeue_of (stream_in s.old) }
{
    if s[GRANTED] == 0 {
        return Err(Refusal::NoBuffers);
    }
    if s[STREAMING] == 0 {
        return Err(Refusal::NotStreaming);
    }
    let f = stream_line::oldest_outgoing(s).ok_or(Refusal::NothingOutgoing)?;
    stream_moves::pop(s);
    s[HANDED] = s[HANDED].wrapping_add(1);
    Ok(f)
}
