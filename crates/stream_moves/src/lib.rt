// How buffers move between the queues.
#![tactic(auto)]

ghost use Rattle.std.specs.Prelude.{◌≡◌};
ghost use Rattle.stream_words.specs.Stream.{on_queues};
ghost use Rattle.stream_words.specs.Words.{stream_in};
ghost use Rattle.stream_words.specs.Moves.{emptied, pushed, popped};

use stream_words::{GRANTED, HEAD, HOLDING, INDEX, LINED, Words};

// So many buffers, none of them in a queue.
pub fn empty(s: &mut Words, granted: u64)
    ensures { stream_in s.new ≡ on_queues (λ q. emptied granted) (stream_in s.old) }
{
    s[GRANTED] = granted;
    s[HOLDING] = 0;
    s[LINED] = 0;
}

// Buffer k becomes the youngest that waits for a frame.
pub fn push(s: &mut Words, k: u32)
    ensures { stream_in s.new ≡ on_queues (λ q. pushed q k) (stream_in s.old) }
{
    let n = stream_words::lined(s);
    if 32 <= n {
        return;
    }
    let d = stream_words::holding(s);
    let p = stream_words::place(s, n);
    s[INDEX + p] = k as u64;
    s[HOLDING] = d;
    s[LINED] = n + 1;
}

// The oldest that holds a frame leaves the queues.
pub fn pop(s: &mut Words)
    ensures { stream_in s.new ≡ on_queues (λ q. popped q) (stream_in s.old) }
{
    let d = stream_words::holding(s);
    if d == 0 {
        return;
    }
    let n = stream_words::lined(s);
    s[HEAD] = (s[HEAD] % 32 + 1) % 32;
    s[HOLDING] = d - 1;
    s[LINED] = n - 1;
}
