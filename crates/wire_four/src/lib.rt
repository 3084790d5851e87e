// Four words in a row, and whether bytes lie within a length.
#![tactic(auto)]

ghost use Rattle.std.specs.Prelude.{◌≡◌, ◌+◌, leb};
ghost use Rattle.wire_read.specs.Words.{four_words};

// Whether n bytes from a place on lie within a length.
pub fn within(length: usize, at: usize, n: usize) -> bool
    ensures { result ≡ leb (at + n) length }
{
    if length < n {
        return false;
    }
    at <= length - n
}

// The first four words. One by one: `map` of an array is a loop of the library, and sizes are found with no loop (request A3, tools/loops).
fn first_four(s: &[u8]) -> [u32; 4]
    ensures { result ≡ four_words s.now 0 }
{
    [
        wire_read::word_at(s, 0),
        wire_read::word_at(s, 4),
        wire_read::word_at(s, 8),
        wire_read::word_at(s, 12),
    ]
}

// Four words in a row. Two paths, for speed: where all are there they are read in a part of 16 bytes, which the compiler knows to be so long, so that
// one test serves all four.
pub fn four_words(s: &[u8], at: usize) -> [u32; 4]
    ensures { result ≡ four_words s.now at }
{
    if within(s.len(), at, 16) {
        return first_four(&s[at..at + 16]);
    }
    first_four(wire_read::part(s, at, 16))
}
