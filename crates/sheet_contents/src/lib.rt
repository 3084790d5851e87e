// A sheet's table of contents: how many formats and controls there are, and where each body starts.
// Each field has a function of its own, though some differ in a number alone: the name says which field it is, and no caller has to know its place.
#![tactic(auto)]

ghost use Rattle.std.specs.Prelude.{◌≡◌, ◌<◌};
ghost use Rattle.sheet_contents.specs.Contents.{identity_at, format_count, control_count, format_at, geometry_at, control_at};

// How many formats the sheet has.
pub fn format_count(s: &[u8]) -> u32
    ensures { result ≡ format_count s.now }
{
    wire_read::word_at(s, 12)
}

// How many controls the sheet has.
pub fn control_count(s: &[u8]) -> u32
    ensures { result ≡ control_count s.now }
{
    wire_read::word_at(s, 28)
}

// Where the identity starts: driver, card, bus and version, the 84 bytes that open the answer to QUERYCAP.
pub fn identity_at(s: &[u8]) -> usize
    ensures { result ≡ identity_at s.now }
{
    wire_read::word_at(s, 0) as usize
}

// Where format k starts. The bound lets callers add to it.
pub fn format_at(s: &[u8], k: u32) -> usize
    ensures { (result ≡ format_at s.now k) × (result < 1099511627776) }
{
    wire_read::word_at(s, 8) as usize + 36 * (k as usize)
}

// Where the geometry starts.
pub fn geometry_at(s: &[u8]) -> usize
    ensures { (result ≡ geometry_at s.now) × (result < 1099511627776) }
{
    wire_read::word_at(s, 16) as usize
}

// Where control k starts.
pub fn control_at(s: &[u8], k: u32) -> usize
    ensures { (result ≡ control_at s.now k) × (result < 1099511627776) }
{
    wire_read::word_at(s, 24) as usize + 68 * (k as usize)
}
