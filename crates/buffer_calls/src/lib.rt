// REQBUFS and QUERYBUF of one stream, whatever it carries: the type that its calls name, and the size of its frames, come in with each.
// That the argument names this type is tested by the caller, who picks the stream by it.
// Inlined where the length of the argument was tested, for speed: the compiler then knows it.
#![tactic(auto)]

ghost use Rattle.std.specs.Prelude.{◌≡◌};
ghost use Rattle.ioctl_table.specs.Refusal.{number_of};
ghost use Rattle.stream_words.specs.Words.{stream_in};
ghost use Rattle.buffer_calls.specs.Buffers.{stream_answer, reqbufs_of, querybuf_of};

use ioctl_table::Refusal;
use stream_words::Words;

// Buffers are asked for, or freed.
#[inline(always)]
pub fn reqbufs(s: &mut Words, kind: u32, size: u32, argument: &mut [u8]) -> Result<(), Refusal>
    ensures { stream_answer (number_of result) (stream_in s.new) argument.new ≡ reqbufs_of (stream_in s.old) kind size argument.old }
{
    if wire_read::word_at(argument, 8) != 1 {
        return Err(Refusal::WrongMemory);
    }
    let count = wire_read::word_at(argument, 0);
    let n = stream_run::request_buffers(s, count, size)?;
    buffer_replies::put_buffers(argument, kind, n);
    Ok(())
}

// The status of a buffer.
#[inline(always)]
pub fn querybuf(s: &Words, kind: u32, size: u32, argument: &mut [u8]) -> Result<(), Refusal>
    ensures { stream_answer (number_of result) (stream_in s.now) argument.new ≡ querybuf_of (stream_in s.now) kind size argument.old }
{
    let k = wire_read::word_at(argument, 0);
    let b = stream_status::query(s, k, size)?;
    buffer_replies::put_buffer(argument, kind, b);
    Ok(())
}
