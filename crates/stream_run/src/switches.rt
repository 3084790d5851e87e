// Buffers are granted, a run begins, a run ends: each with its refusals in the order of the checks.
ghost use Rattle.std.specs.Prelude.{◌≡◌};
ghost use Rattle.stream_words.specs.Words.{stream_in};
ghost use Rattle.stream_run.specs.Replies.{done, granted};
ghost use Rattle.stream_run.specs.Replies.Reply.{Done};
ghost use Rattle.stream_run.specs.Switches.{answers, grant_of, request_buffers_of, start_of, stop_of};

use crate::run;
use ioctl_table::Refusal;
use stream_words::{GRANTED, LENGTH, STREAMING, Words};

// How many buffers of this frame size are granted to one who asks for a count of them.
fn grant(length: u64, count: u32, size: u32) -> u32
    ensures { result ≡ grant_of length count size }
{
    let slot = stream_slots::slot_size(size);
    if slot == 0 {
        return 0;
    }
    (count as u64).min(32).min(length / slot) as u32
}

// Buffers are asked for. All there were go first, and so does a run; while one is on, only a count of 0 is taken. While a buffer is mapped
// nothing is: its memory is in a client's hands.
pub fn request_buffers(s: &mut Words, count: u32, size: u32) -> Result<u32, Refusal>
    ensures { answers (granted result) (stream_in s.new) ≡ request_buffers_of (stream_in s.old) count size }
{
    if stream_maps::any_mapped(s) {
        return Err(Refusal::StillMapped);
    }
    if (s[STREAMING] != 0) & (count != 0) {
        return Err(Refusal::Streaming);
    }
    let n = grant(s[LENGTH], count, size);
    run::end(s, n as u64);
    Ok(n)
}

// A run begins, unless one is on.
pub fn start(s: &mut Words) -> Result<(), Refusal>
    ensures { answers (done result) (stream_in s.new) ≡ start_of (stream_in s.old) }
{
    if s[GRANTED] == 0 {
        return Err(Refusal::NoBuffers);
    }
    if s[STREAMING] != 0 {
        return Ok(());
    }
    run::begin(s);
    Ok(())
}

// The run ends, if one is on; both queues are emptied in any case.
pub fn stop(s: &mut Words)
    ensures { answers Done (stream_in s.new) ≡ stop_of (stream_in s.old) }
{
    let granted = s[GRANTED];
    run::end(s, granted);
}
