// The geometry of a sheet: what its numbers are, and its sizes and line alignment. The crop is in `sheet_crop`.
#![tactic(auto)]

ghost use Rattle.std.specs.Prelude.{◌≡◌};
ghost use Rattle.sheet_geometry.specs.Geometry.{range_at, widths_of, heights_of, line_alignment};

// The allowed widths or heights: from least to greatest by step.
#[repr(C)]
#[derive(Clone, Copy)]
pub struct Range {
    pub least: u32,
    pub greatest: u32,
    pub step: u32,
}

// v4l2_rect.
#[repr(C)]
#[derive(Clone, Copy)]
pub struct Rect {
    pub left: i32,
    pub top: i32,
    pub width: i32,
    pub height: i32,
}

// v4l2_fract.
#[repr(C)]
#[derive(Clone, Copy)]
pub struct Fraction {
    pub numerator: u32,
    pub denominator: u32,
}

// Least, greatest and step at a place: three of four words, since one test serves four.
fn range_at(s: &[u8], at: usize) -> Range
    ensures { result ≡ range_at s.now at }
{
    let w = wire_four::four_words(s, at);
    Range {
        least: w[0],
        greatest: w[1],
        step: w[2],
    }
}

// The allowed widths. They and the heights differ in their place alone, which `range_at` takes: the name says which they are.
pub fn widths(s: &[u8]) -> Range
    ensures { result ≡ widths_of s.now }
{
    range_at(s, sheet_contents::geometry_at(s))
}

// The allowed heights.
pub fn heights(s: &[u8]) -> Range
    ensures { result ≡ heights_of s.now }
{
    range_at(s, sheet_contents::geometry_at(s) + 12)
}

// What the bytes of a line are rounded up to.
pub fn line_alignment(s: &[u8]) -> u32
    ensures { result ≡ line_alignment s.now }
{
    let at = sheet_contents::geometry_at(s);
    wire_read::word_at(s, at + 24)
}
