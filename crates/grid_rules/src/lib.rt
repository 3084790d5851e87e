// The nearest of the numbers that go from a least one to a greatest by a step: sizes, and the values of a control.
// Arithmetic only. Every grid has an answer; with a step of 0, or a greatest below the least, it is the least.
#![tactic(auto)]

ghost use Rattle.std.specs.Prelude.{◌≡◌, ◌+◌, ◌-◌};
ghost use Rattle.wire_signed.specs.Signed.{biased_of};
ghost use Rattle.grid_rules.specs.Grid.{nearest_up_to, nearest_size, nearest_value};

use sheet_geometry::Range;
use sheet_records::Limits;

// The number of the grid nearest to the one asked: just under half a step is added, so that a tie goes down, and what is
// not a whole step is cut off. The sum can pass 32 bits.
fn nearest(least: u32, greatest: u32, step: u32, asked: u32) -> u32
    ensures { result ≡ least + nearest_up_to (greatest - least) step (asked - least) }
{
    if step == 0 {
        return least;
    }
    let by = step as u64;
    let top = greatest.saturating_sub(least);
    let n = (asked.saturating_sub(least) as u64 + (by - 1) / 2) / by * by;
    least + n.min(top as u64) as u32
}

// The allowed size nearest to the one asked, the smaller on a tie.
pub fn nearest_size(r: Range, asked: u32) -> u32
    ensures { result ≡ nearest_size r asked }
{
    nearest(r.least, r.greatest, r.step, asked)
}

// A signed number counted from -2^31 up, so that unsigned arithmetic serves.
fn counted(z: i32) -> u32
    ensures { result ≡ biased_of z }
{
    wire_signed::biased(wire_signed::as_bits(z))
}

// The value of a control's grid nearest to the one asked, the one nearer the minimum on a tie. A second move by 2^31 leads
// from the count back to the word.
pub fn nearest_value(l: Limits, value: i32) -> i32
    ensures { result ≡ nearest_value l value }
{
    let step = counted(l.step).saturating_sub(0x8000_0000);
    let n = nearest(counted(l.minimum), counted(l.maximum), step, counted(value));
    wire_signed::as_signed(wire_signed::biased(n))
}
