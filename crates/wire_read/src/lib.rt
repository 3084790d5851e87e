// Reading lent bytes: a 32-bit little-endian word, a part. Every place and every length is taken: what lies past the end reads as 0, or is not there.
#![tactic(auto)]

ghost use Rattle.std.specs.Prelude.{◌≡◌, ◌+◌, ◌*◌, ◌<◌, length, get_or, take, drop};
ghost use Rattle.wire_read.specs.Words.{word_at};

// The byte at a place, 0 past the end.
pub fn byte_at(s: &[u8], at: usize) -> u8
    ensures { result ≡ get_or s.now at 0 }
{
    if at < s.len() { s[at] } else { 0 }
}

// The word at a place in the slice, where it may reach past the end: a test for each byte.
fn cut_word(s: &[u8], at: usize) -> u32
    requires { at < length s.now }
    ensures { result ≡ word_at s.now at }
{
    u32::from_le_bytes([
        byte_at(s, at),
        byte_at(s, at + 1),
        byte_at(s, at + 2),
        byte_at(s, at + 3),
    ])
}

// The word at a place; bytes past the end count as 0. Two paths, for speed: four bytes that are all there are read with
// no test between them, which compiles to one load of 32 bits.
pub fn word_at(s: &[u8], at: usize) -> u32
    ensures { result ≡ word_at s.now at }
{
    if s.len() <= at {
        return 0;
    }
    if s.len() - at < 4 {
        return cut_word(s, at);
    }
    u32::from_le_bytes([s[at], s[at + 1], s[at + 2], s[at + 3]])
}

// The n bytes from a place on, or as many of them as there are.
pub fn part(s: &[u8], at: usize, n: usize) -> &[u8]
    ensures { result.now ≡ take n (drop at s.now) }
{
    let end = s.len();
    if end <= at {
        return &s[end..];
    }
    if end - at <= n {
        return &s[at..];
    }
    let to = at + n;
    &s[at..to]
}
