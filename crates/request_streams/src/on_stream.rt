// The calls on one stream, of a type and a frame size: what each answers, where its argument names the type, and what does it.
ghost use Rattle.std.specs.Prelude.{◌≡◌, ℕ, List};
ghost use Rattle.ioctl_table.specs.Refusal.{number_of};
ghost use Rattle.stream_words.specs.Stream.{Stream};
ghost use Rattle.stream_words.specs.Words.{stream_in};
ghost use Rattle.buffer_calls.specs.Buffers.{StreamAnswer, stream_answer, reqbufs_of, querybuf_of};
ghost use Rattle.queue_calls.specs.Queues.{qbuf_of};
ghost use Rattle.dequeue_calls.specs.Dequeues.{dqbuf_of};
ghost use Rattle.run_calls.specs.Runs.{streamon_of, streamoff_of};

use ioctl_table::Refusal;
use stream_words::Words;

pub(crate) trait OnStream {
    // What it answers.
    ghost answers: { Stream → ℕ → ℕ → List ℕ → StreamAnswer };

    fn call(s: &mut Words, kind: u32, size: u32, argument: &mut [u8]) -> Result<(), Refusal>
        ensures { stream_answer (number_of result) (stream_in s.new) argument.new ≡ answers (stream_in s.old) kind size argument.old };
}

pub(crate) struct Reqbufs;

impl OnStream for Reqbufs {
    ghost answers = { reqbufs_of };

    #[inline(always)]
    fn call(s: &mut Words, kind: u32, size: u32, argument: &mut [u8]) -> Result<(), Refusal> {
        buffer_calls::reqbufs(s, kind, size, argument)
    }
}

pub(crate) struct Querybuf;

impl OnStream for Querybuf {
    ghost answers = { querybuf_of };

    #[inline(always)]
    fn call(s: &mut Words, kind: u32, size: u32, argument: &mut [u8]) -> Result<(), Refusal> {
        buffer_calls::querybuf(s, kind, size, argument)
    }
}

pub(crate) struct Qbuf;

impl OnStream for Qbuf {
    ghost answers = { qbuf_of };

    #[inline(always)]
    fn call(s: &mut Words, kind: u32, size: u32, argument: &mut [u8]) -> Result<(), Refusal> {
        queue_calls::qbuf(s, kind, size, argument)
    }
}

pub(crate) struct Dqbuf;

impl OnStream for Dqbuf {
    ghost answers = { dqbuf_of };

    #[inline(always)]
    fn call(s: &mut Words, kind: u32, size: u32, argument: &mut [u8]) -> Result<(), Refusal> {
        dequeue_calls::dqbuf(s, kind, size, argument)
    }
}

pub(crate) struct Streamon;

impl OnStream for Streamon {
    ghost answers = { streamon_of };

    #[inline(always)]
    fn call(s: &mut Words, _kind: u32, _size: u32, _argument: &mut [u8]) -> Result<(), Refusal> {
        run_calls::streamon(s)
    }
}

pub(crate) struct Streamoff;

impl OnStream for Streamoff {
    ghost answers = { streamoff_of };

    #[inline(always)]
    fn call(s: &mut Words, _kind: u32, _size: u32, _argument: &mut [u8]) -> Result<(), Refusal> {
        run_calls::streamoff(s);
        Ok(())
    }
}
