// The map counts of a stream: how often a client has each buffer mapped.
#![tactic(auto)]

ghost use Rattle.std.specs.Prelude.{◌≡◌};
ghost use Rattle.stream_words.specs.Words.{stream_in};
ghost use Rattle.stream_maps.specs.Maps.{is_mapped, any_mapped};

use stream_words::{MAPS, Words};

// What becomes of a count.
#[derive(Clone, Copy)]
pub enum Change {
    Map,
    Unmap,
}

// Whether buffer k is mapped.
pub fn is_mapped(s: &Words, k: u32) -> bool
    ensures { result ≡ is_mapped (stream_in s.now).maps k }
{
    if k < 32 {
        return s[MAPS + k as usize] != 0;
    }
    false
}

// Whether one of them is. All counts are looked at, where `any` would stop at the first, so that they can be taken several at a time.
pub fn any_mapped(s: &Words) -> bool
    ensures { result ≡ any_mapped (stream_in s.now).maps }
{
    let mut found = false;
    for k in 0..32 {
        found |= s[MAPS + k] != 0;
    }
    found
}
