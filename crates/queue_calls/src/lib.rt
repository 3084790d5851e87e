// QBUF of one stream, whatever it carries: the type that its calls name, and the size of its frames, come in with it.
// That the argument names this type is tested by the caller, who picks the stream by it.
// Inlined where the length of the argument was tested, for speed: the compiler then knows it.
#![tactic(auto)]

ghost use Rattle.std.specs.Prelude.{◌≡◌};
ghost use Rattle.ioctl_table.specs.Refusal.{number_of};
ghost use Rattle.stream_words.specs.Words.{stream_in};
ghost use Rattle.buffer_calls.specs.Buffers.{stream_answer};
ghost use Rattle.queue_calls.specs.Queues.{qbuf_of};

use ioctl_table::Refusal;
use stream_words::Words;

// A buffer is handed in.
#[inline(always)]
pub fn qbuf(s: &mut Words, kind: u32, size: u32, argument: &mut [u8]) -> Result<(), Refusal>
    ensures { stream_answer (number_of result) (stream_in s.new) argument.new ≡ qbuf_of (stream_in s.old) kind size argument.old }
{
    if wire_read::word_at(argument, 48) != 1 {
        return Err(Refusal::WrongMemory);
    }
    let k = wire_read::word_at(argument, 0);
    let room = stream_line::has_room(s);
    stream_queue::enqueue(s, k)?;
    buffer_replies::put_buffer(argument, kind, stream_status::queued(s, k, room, size));
    Ok(())
}
