// The status of a buffer, as QUERYBUF, QBUF and DQBUF tell it.
#![tactic(auto)]

ghost use Rattle.std.specs.Prelude.{◌≡◌, ◌≤◌};
ghost use Rattle.stream_words.specs.Words.{stream_in};
ghost use Rattle.stream_status.specs.Buffer.{flags_for, flags_of, frame_for, described_of, status_of, queued_of, query_of, returned_of};

use ioctl_table::Refusal;
use stream_words::{Filled, Standing, Time, Words};

// A buffer as QUERYBUF, QBUF and DQBUF describe it.
#[repr(C)]
#[derive(Clone, Copy)]
pub struct Status {
    pub index: u32,
    pub used: u32,
    pub flags: u32,
    pub number: u32,
    pub offset: u64,
    pub length: u64,
    pub time: Time,
}

// The flags of the queue that it is in.
fn place_flags(st: Standing) -> u32
    ensures { (result ≡ flags_for st) × (result ≤ 4) }
{
    match st {
        Standing::Dequeued => 0,
        Standing::Incoming => 2,
        Standing::Outgoing(_) => 4,
    }
}

// Its flags: one more while it is mapped.
fn flags(mapped: bool, st: Standing) -> u32
    ensures { result ≡ flags_of mapped st }
{
    u32::from(mapped) + place_flags(st)
}

// The frame in it.
fn held(st: Standing) -> Filled
    ensures { result ≡ frame_for st }
{
    match st {
        Standing::Outgoing(f) => f,
        Standing::Dequeued | Standing::Incoming => stream_line::no_frame(),
    }
}

// Buffer k with these flags, and this frame in it.
fn described(k: u32, flags: u32, f: Filled, size: u32) -> Status
    ensures { result ≡ described_of k flags f size }
{
    let time = f.time;
    let offset = stream_slots::slot_offset(k, size);
    let length = stream_slots::slot_size(size);
    Status {
        index: k,
        used: f.used,
        flags,
        number: f.number,
        offset,
        length,
        time,
    }
}

// Buffer k, while frames have this size.
fn of_buffer(s: &Words, k: u32, size: u32) -> Status
    ensures { result ≡ status_of (stream_in s.now) k size }
{
    let st = stream_search::standing_of(s, k);
    described(k, flags(stream_maps::is_mapped(s, k), st), held(st), size)
}

// The status of a buffer that was just taken in, into a line that had room or not. It need not be looked for.
pub fn queued(s: &Words, k: u32, room: bool, size: u32) -> Status
    ensures { result ≡ queued_of (stream_in s.now).maps k room size }
{
    let none = stream_line::no_frame();
    let mapped = stream_maps::is_mapped(s, k);
    if room {
        return described(k, flags(mapped, Standing::Incoming), none, size);
    }
    described(k, flags(mapped, Standing::Dequeued), none, size)
}

// The status of buffer k, if there is one.
pub fn query(s: &Words, k: u32, size: u32) -> Result<Status, Refusal>
    ensures { result ≡ query_of (stream_in s.now) k size }
{
    if s[stream_words::GRANTED] <= k as u64 {
        return Err(Refusal::NoSuchIndex);
    }
    Ok(of_buffer(s, k, size))
}

// The status of a buffer that is handed over with this frame.
pub fn returned(s: &Words, f: Filled, size: u32) -> Status
    ensures { result ≡ returned_of (stream_in s.now).maps f size }
{
    let mapped = stream_maps::is_mapped(s, f.index);
    described(f.index, flags(mapped, Standing::Dequeued), f, size)
}
