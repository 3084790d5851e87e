// Whether the geometry of a sheet keeps the rules.
#![tactic(auto)]

ghost use Rattle.std.specs.Prelude.{◌≡◌};
ghost use Rattle.wire_signed.specs.Signed.{signed, signed_at};
ghost use Rattle.sheet_geometry.specs.Geometry.{crop_bounds, crop_default};
ghost use Rattle.sheet_rules.specs.Rules.{alignment_ok, bound_ok, inside_ok, bounds_ok, default_ok, aspect_ok, geometry_ok};

// A power of two from 2 to 64.
fn alignment_ok(a: u32) -> bool
    ensures { result ≡ alignment_ok a }
{
    matches!(a, 2 | 4 | 8 | 16 | 32 | 64)
}

// One direction of the bounds; -32768, 32767, 1 and 8192 counted from -2^31.
fn bound_ok(start: u32, size: u32) -> bool
    ensures { result ≡ bound_ok (signed start) (signed size) }
{
    let a = wire_signed::biased(start);
    let n = wire_signed::biased(size);
    (0x7fff_8000 <= a) & (a <= 0x8000_7fff) & (0x8000_0001 <= n) & (n <= 0x8000_2000)
}

// One direction of the default: the sums are of 64 bits, so that they cannot wrap.
fn inside_ok(start: u32, size: u32, at: u32, long: u32) -> bool
    ensures { result ≡ inside_ok (signed start) (signed size) (signed at) (signed long) }
{
    let l = wire_signed::biased(start);
    let z = wire_signed::biased(size);
    let a = wire_signed::biased(at);
    let n = wire_signed::biased(long);
    (l <= a) & (0x8000_0001 <= n) & (a as u64 + n as u64 <= l as u64 + z as u64)
}

// The crop bounds.
fn bounds_ok(s: &[u8]) -> bool
    ensures { result ≡ bounds_ok (crop_bounds s.now) }
{
    let b = sheet_contents::geometry_at(s) + 28;
    bound_ok(wire_read::word_at(s, b), wire_read::word_at(s, b + 8))
        & bound_ok(wire_read::word_at(s, b + 4), wire_read::word_at(s, b + 12))
}

// One direction of the default, from the places of its numbers.
fn inside_at(s: &[u8], start: usize, size: usize, at: usize, long: usize) -> bool
    ensures { result ≡ inside_ok (signed_at s.now start) (signed_at s.now size) (signed_at s.now at) (signed_at s.now long) }
{
    inside_ok(
        wire_read::word_at(s, start),
        wire_read::word_at(s, size),
        wire_read::word_at(s, at),
        wire_read::word_at(s, long),
    )
}

// The default crop.
fn default_ok(s: &[u8]) -> bool
    ensures { result ≡ default_ok (crop_bounds s.now) (crop_default s.now) }
{
    let g = sheet_contents::geometry_at(s);
    let b = g + 28;
    let d = g + 44;
    inside_at(s, b, b + 8, d, d + 8) & inside_at(s, b + 4, b + 12, d + 4, d + 12)
}

// The pixel aspect.
fn aspect_ok(s: &[u8]) -> bool
    ensures { result ≡ aspect_ok s.now }
{
    let a = sheet_crop::pixel_aspect(s);
    (0 < a.numerator) & (0 < a.denominator)
}

// The geometry.
pub fn geometry_ok(s: &[u8]) -> bool
    ensures { result ≡ geometry_ok s.now }
{
    sheet_rules::range_ok(sheet_geometry::widths(s))
        & sheet_rules::range_ok(sheet_geometry::heights(s))
        & alignment_ok(sheet_geometry::line_alignment(s))
        & bounds_ok(s)
        & default_ok(s)
        & aspect_ok(s)
}
