// Controls by their ids.
#![tactic(auto)]

ghost use Rattle.std.specs.Prelude.{◌≡◌};
ghost use Rattle.control_place_rules.specs.Find.{present, found_place, place_of, place_above, queried_place};

// How many controls there are to look at. A good sheet has at most 32.
pub fn count(s: &[u8]) -> u32
    ensures { result ≡ present s.now }
{
    sheet_contents::control_count(s).min(32)
}

// The place of the control with this id. This search and the next differ in their test alone. One search by `find`, with the test as a closure, was
// tried: G_CTRL and S_CTRL took 16 to 27 in a hundred more instructions with it, and a loop takes no more than before. Inlined, for speed.
#[inline(always)]
pub fn place(s: &[u8], id: u32) -> Option<u32>
    ensures { result ≡ found_place s.now (place_of s.now id) }
{
    for k in 0..count(s) {
        if sheet_controls::control_id(s, k) == id {
            return Some(k);
        }
    }
    None
}

// The place of the first control with a higher id.
fn place_above(s: &[u8], id: u32) -> Option<u32>
    ensures { result ≡ found_place s.now (place_above s.now id) }
{
    for k in 0..count(s) {
        if id < sheet_controls::control_id(s, k) {
            return Some(k);
        }
    }
    None
}

// What QUERYCTRL looks for: the id, or with bit 31 the next higher one.
pub fn queried(s: &[u8], id: u32) -> Option<u32>
    ensures { result ≡ found_place s.now (queried_place s.now id) }
{
    if id < 0x8000_0000 {
        return place(s, id);
    }
    place_above(s, id - 0x8000_0000)
}
