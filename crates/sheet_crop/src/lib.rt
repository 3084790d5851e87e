// The crop of a sheet: bounds, default and pixel aspect.
#![tactic(auto)]

ghost use Rattle.std.specs.Prelude.{◌≡◌};
ghost use Rattle.sheet_geometry.specs.Geometry.{rect_at, crop_bounds, crop_default, pixel_aspect};

use sheet_geometry::{Fraction, Rect};

// Left, top, width and height at a place.
fn rect_at(s: &[u8], at: usize) -> Rect
    ensures { result ≡ rect_at s.now at }
{
    let w = wire_four::four_words(s, at);
    Rect {
        left: wire_signed::as_signed(w[0]),
        top: wire_signed::as_signed(w[1]),
        width: wire_signed::as_signed(w[2]),
        height: wire_signed::as_signed(w[3]),
    }
}

// The rectangle that a crop stays inside. It and the default differ in their place alone, which `rect_at` takes: the name says which it is.
pub fn crop_bounds(s: &[u8]) -> Rect
    ensures { result ≡ crop_bounds s.now }
{
    rect_at(s, sheet_contents::geometry_at(s) + 28)
}

// The default rectangle, as the sheet has it.
pub fn crop_default(s: &[u8]) -> Rect
    ensures { result ≡ crop_default s.now }
{
    rect_at(s, sheet_contents::geometry_at(s) + 44)
}

// A pixel's height over its width.
pub fn pixel_aspect(s: &[u8]) -> Fraction
    ensures { result ≡ pixel_aspect s.now }
{
    let at = sheet_contents::geometry_at(s);
    Fraction {
        numerator: wire_read::word_at(s, at + 60),
        denominator: wire_read::word_at(s, at + 64),
    }
}
