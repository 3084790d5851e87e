// The bytes of answers about buffers, stored over the argument from its start. Reserved fields are zero.
#![tactic(auto)]

ghost use Rattle.std.specs.Prelude.{◌≡◌};
ghost use Rattle.std.proofs.lemmas.List.Edits.{sets};
ghost use Rattle.buffer_replies.specs.Replies.{buffers_reply, buffer_reply};

use stream_status::Status;

// REQBUFS: how many buffers there are now.
pub fn put_buffers(argument: &mut [u8], kind: u32, count: u32)
    ensures { argument.new ≡ sets argument.old 0 (buffers_reply kind count) }
{
    let words = [count, kind, 1, 0, 0];
    wire_store::put_words(argument, 0, &words);
}

// QUERYBUF, QBUF and DQBUF. Offset and length are stored as words of 32 bits, and those of a buffer in the memory are that small.
pub fn put_buffer(argument: &mut [u8], kind: u32, b: Status)
    ensures { argument.new ≡ sets argument.old 0 (buffer_reply kind b) }
{
    let time = b.time;
    let words = [
        b.index,
        kind,
        b.used,
        b.flags,
        1,
        wire_signed::as_bits(time.seconds),
        wire_signed::as_bits(time.microseconds),
        0,
        0,
        0,
        0,
        b.number,
        1,
        (b.offset & 0xffff_ffff) as u32,
        (b.length & 0xffff_ffff) as u32,
        0,
        0,
    ];
    wire_store::put_words(argument, 0, &words);
}
