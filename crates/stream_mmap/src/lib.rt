// The two calls of a client that map a buffer and unmap it. Nothing is mapped here: what a client has mapped is counted, so that its memory is
// not given away meanwhile.
#![tactic(auto)]

ghost use Rattle.std.specs.Prelude.{◌≡◌, ◌<◌, Some};
ghost use Rattle.stream_words.specs.Words.{stream_in};
ghost use Rattle.stream_run.specs.Replies.{done};
ghost use Rattle.stream_run.specs.Switches.{answers};
ghost use Rattle.stream_mmap.specs.Mapping.{changed_at, change_of};

use ioctl_table::Refusal;
use stream_maps::Change;
use stream_words::{GRANTED, MAPS, Words};

// The count of buffer k goes up or down by one.
fn turn(s: &mut Words, c: Change, k: u32) -> Result<(), Refusal>
    requires { k < 32 }
    ensures { answers (done result) (stream_in s.new) ≡ changed_at c (stream_in s.old) (Some k) }
{
    let at = MAPS + k as usize;
    let n = s[at];
    match c {
        Change::Map => {
            if n >= 255 {
                return Err(Refusal::MapsFull);
            }
            s[at] = n + 1;
            Ok(())
        }
        Change::Unmap => {
            if n == 0 {
                return Err(Refusal::NotMapped);
            }
            s[at] = n - 1;
            Ok(())
        }
    }
}

// A buffer is mapped or unmapped, by its offset and its length; frames have this size. Those that can be are those granted, and there is a
// count for each of 32.
pub fn change(s: &mut Words, c: Change, size: u32, offset: u32, length: u32) -> Result<(), Refusal>
    ensures { answers (done result) (stream_in s.new) ≡ change_of c (stream_in s.old) size offset length }
{
    let n = s[GRANTED].min(32);
    let k = stream_slots::slot_at(n, size, offset, length).ok_or(Refusal::NoSuchBuffer)?;
    turn(s, c, k)
}
