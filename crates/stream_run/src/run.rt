// A run begins, and ends.
ghost use Rattle.std.specs.Prelude.{◌≡◌};
ghost use Rattle.stream_words.specs.Words.{stream_in};
ghost use Rattle.stream_run.specs.Stream.{fresh_stream, started, stopped};

use stream_words::{
    ACCEPTED, DAMAGED, DISCARDED, DROPPED, HANDED, LENGTH, NEXT_NUMBER, RAN, STREAMING, Words,
};

// After opening: no buffers, no run.
pub fn fresh(length: u64) -> Words
    ensures { stream_in result ≡ fresh_stream length }
{
    let mut w = [0u64; 208];
    w[LENGTH] = length;
    w
}

// A run begins, with a record of its own and numbers from 0 on.
pub(crate) fn begin(s: &mut Words)
    ensures { stream_in s.new ≡ started (stream_in s.old) }
{
    s[STREAMING] = 1;
    s[RAN] = 1;
    s[ACCEPTED] = 0;
    s[HANDED] = 0;
    s[DAMAGED] = 0;
    s[DROPPED] = 0;
    s[DISCARDED] = 0;
    s[NEXT_NUMBER] = 0;
}

// A run ends: what is outgoing is discarded by the stop. With no run on, the record stays. So many buffers are left, all dequeued.
pub(crate) fn end(s: &mut Words, granted: u64)
    ensures { stream_in s.new ≡ stopped (stream_in s.old) granted }
{
    if s[STREAMING] == 0 {
        stream_moves::empty(s, granted);
        return;
    }
    let n = stream_line::outgoing_count(s);
    s[STREAMING] = 0;
    s[DISCARDED] = n;
    stream_moves::empty(s, granted);
}
