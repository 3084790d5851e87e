// STREAMON and STREAMOFF of one stream, whatever it carries. That the argument names its type is tested by the caller.
#![tactic(auto)]

ghost use Rattle.std.specs.Prelude.{◌≡◌, List, ℕ};
ghost use Rattle.ioctl_table.specs.Refusal.{number_of};
ghost use Rattle.stream_words.specs.Words.{stream_in};
ghost use Rattle.buffer_calls.specs.Buffers.{stream_answer};
ghost use Rattle.run_calls.specs.Runs.{streamon_of, streamoff_of};

use ioctl_table::Refusal;
use stream_words::Words;

// A run begins.
pub fn streamon(s: &mut Words) -> Result<(), Refusal>
    ensures { (kind size : ℕ) (a : List ℕ) → stream_answer (number_of result) (stream_in s.new) a ≡ streamon_of (stream_in s.old) kind size a }
{
    stream_run::start(s)
}

// The run ends, if one is on, and the queues are emptied.
pub fn streamoff(s: &mut Words)
    ensures { (kind size : ℕ) (a : List ℕ) → stream_answer 0 (stream_in s.new) a ≡ streamoff_of (stream_in s.old) kind size a }
{
    stream_run::stop(s);
}
