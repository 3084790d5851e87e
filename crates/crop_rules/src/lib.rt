// A crop rectangle brought inside its bounds, for every rectangle and all bounds of signed 32-bit numbers.
#![tactic(auto)]

ghost use Rattle.std.specs.Prelude.{◌≡◌};
ghost use Rattle.crop_rules.specs.Crop.{clamp_z, size_in, clamped_place, fields_apart, clamped, opening_crop};

use sheet_geometry::Rect;

// The number of low..high nearest to the one asked, low where there is none. Only high may need more than 32 bits. By min and max in 64 bits it takes
// a cast back, whose bound the check did not find by itself.
fn nearest(low: i32, high: i64, asked: i32) -> i32
    ensures { result ≡ clamp_z low high asked }
{
    if asked as i64 <= high {
        if low <= asked { asked } else { low }
    } else {
        if low as i64 <= high { high as i32 } else { low }
    }
}

// A width or a height, from 1 to that of the bounds.
fn size_in(size: i32, asked: i32) -> i32
    ensures { result ≡ size_in size asked }
{
    nearest(1, size as i64, asked)
}

// A left or a top, from the bounds' start to the last place for this length. That one is reckoned in 64 bits, where it cannot wrap.
fn place_in(start: i32, size: i32, long: i32, asked: i32) -> i32
    ensures { result ≡ clamped_place start size long asked }
{
    let last = start as i64 + (size as i64 - long as i64);
    nearest(start, last, asked)
}

// A top: brought inside as a left is, and then up to an even distance from the bounds' top, which keeps the fields apart. Up is inside: the
// bounds' top itself is at an even distance.
fn top_in(start: i32, size: i32, long: i32, asked: i32) -> i32
    ensures { result ≡ fields_apart start (clamped_place start size long asked) }
{
    let top = place_in(start, size, long, asked);
    let distance = (top as i64 - start as i64) as u32;
    top - (distance % 2) as i32
}

// The rectangle taken in these bounds where this one is asked. Sizes come first: which places are inside depends on them.
pub fn clamp(bounds: Rect, asked: Rect) -> Rect
    ensures { result ≡ clamped bounds asked }
{
    let width = size_in(bounds.width, asked.width);
    let height = size_in(bounds.height, asked.height);
    Rect {
        left: place_in(bounds.left, bounds.width, width, asked.left),
        top: top_in(bounds.top, bounds.height, height, asked.top),
        width,
        height,
    }
}

// The crop at opening: the sheet's default, with its top at an even distance too.
pub fn opening_crop(sheet: &[u8]) -> Rect
    ensures { result ≡ opening_crop sheet.now }
{
    clamp(
        sheet_crop::crop_bounds(sheet),
        sheet_crop::crop_default(sheet),
    )
}
