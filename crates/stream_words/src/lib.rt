// The words of a stream, and the line of buffers that stands in them: its front part holds frames, the rest waits for one. All numbers of a
// stream stand in one array, `Words`, that the caller lends, so that a call changes it in place and moves nothing. Every value is answered.
#![tactic(auto)]

ghost use Rattle.std.specs.Prelude.{◌≡◌};
ghost use Rattle.stream_words.specs.Words.{low, lined_in, holding_in, place_in, index_in};

// When a frame was taken. It goes from function to function whole: a signed number in a struct needs no proof that it fits.
#[repr(C)]
#[derive(Clone, Copy)]
pub struct Time {
    pub seconds: i32,
    pub microseconds: i32,
}

// A buffer that a frame stands in: its index, the frame's number in its run, its bytes used, its time.
#[repr(C)]
#[derive(Clone, Copy)]
pub struct Filled {
    pub index: u32,
    pub number: u32,
    pub used: u32,
    pub time: Time,
}

// Which queue a buffer is in.
#[derive(Clone, Copy)]
pub enum Standing {
    Dequeued,
    Incoming,
    Outgoing(Filled),
}

// The words of a stream, as the header lays them out for C (`tg_stream`). They are one array, the rings side by side, and no struct, since
// `stream_in`, by which the contracts say what stands in them, reads a list of words.
pub type Words = [u64; 208];

// The length of the memory as it was noted at opening; whether a run is on, and whether there was one (not 0); what became of the
// arrivals of the last run.
pub const LENGTH: usize = 0;

pub const STREAMING: usize = 1;

pub const RAN: usize = 2;

pub const ACCEPTED: usize = 3;

pub const HANDED: usize = 4;

pub const DAMAGED: usize = 5;

pub const DROPPED: usize = 6;

pub const DISCARDED: usize = 7;

// How many buffers are granted.
pub const GRANTED: usize = 8;

// The buffers in the queues stand in one line: where it begins in the rings, how many of it hold a frame, how many it has.
pub const HEAD: usize = 9;

pub const HOLDING: usize = 10;

pub const LINED: usize = 11;

// The number that the next arrival of the run gets: 32 bits.
pub const NEXT_NUMBER: usize = 12;

// The rings: for each place its buffer's index, and of the frame in it the number, the bytes used, the time.
pub const INDEX: usize = 16;

pub const NUMBER: usize = 48;

pub const USED: usize = 80;

pub const SECONDS: usize = 112;

pub const MICROSECONDS: usize = 144;

// How often each buffer is mapped, in the order of the indices.
pub const MAPS: usize = 176;

// The lower 32 bits of a word.
pub fn low(n: u64) -> u32
    ensures { result ≡ low n }
{
    (n & 0xffff_ffff) as u32
}

// How many buffers stand in the line.
pub fn lined(s: &Words) -> u64
    ensures { result ≡ lined_in s.now }
{
    s[LINED].min(32)
}

// How many of them hold a frame.
pub fn holding(s: &Words) -> u64
    ensures { result ≡ holding_in s.now }
{
    s[HOLDING].min(lined(s))
}

// The place in the rings of the ith in line.
pub fn place(s: &Words, i: u64) -> usize
    ensures { result ≡ place_in s.now i }
{
    ((s[HEAD] % 32 + i % 32) % 32) as usize
}

// Its index.
pub fn index(s: &Words, i: u64) -> u32
    ensures { result ≡ index_in s.now i }
{
    let p = place(s, i);
    low(s[INDEX + p])
}
