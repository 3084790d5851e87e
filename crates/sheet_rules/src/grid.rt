// Numbers that go from a least one by a step: sizes, and the values of a control.
// A signed number is handed over as its word and compared by its distance from -2^31.
ghost use Rattle.std.specs.Prelude.{◌≡◌, eqb, ◌%◌};
ghost use Rattle.wire_signed.specs.Signed.{signed};
ghost use Rattle.sheet_rules.specs.Rules.{range_ok, on_grid, grid_ok};
ghost use Rattle.sheet_rules.specs.Words.{limits_of_words};

use sheet_geometry::Range;

// Whether step divides x; by 0 only 0 is.
fn multiple_of(x: u32, step: u32) -> bool
    ensures { result ≡ eqb (x % step) 0 }
{
    if step == 0 { x == 0 } else { x % step == 0 }
}

// Whether the allowed widths or heights keep the rules.
pub fn range_ok(r: Range) -> bool
    ensures { result ≡ range_ok r }
{
    (2 <= r.least)
        & (r.greatest <= 8192)
        & (r.least <= r.greatest)
        & (r.least % 2 == 0)
        & (r.step % 2 == 0)
        & (2 <= r.step)
        & multiple_of(r.greatest.saturating_sub(r.least), r.step)
}

// Whether the value is reached from the least one by the step.
fn on_grid(least: u32, step: u32, value: u32) -> bool
    ensures { result ≡ on_grid (signed least) (signed step) (signed value) }
{
    let l = wire_signed::biased(least);
    let v = wire_signed::biased(value);
    let by = wire_signed::biased(step).saturating_sub(0x8000_0000);
    (l <= v) & multiple_of(v.saturating_sub(l), by)
}

// Whether four numbers are a grid with a default on it.
pub fn grid_ok(minimum: u32, maximum: u32, step: u32, initial: u32) -> bool
    ensures { result ≡ grid_ok (limits_of_words minimum maximum step initial) }
{
    (0x8000_0001 <= wire_signed::biased(step))
        & on_grid(minimum, step, maximum)
        & on_grid(minimum, step, initial)
        & (wire_signed::biased(initial) <= wire_signed::biased(maximum))
}
