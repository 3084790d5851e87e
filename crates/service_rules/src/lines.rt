// What is offered on each line, what is made of what a client asks for, and what an answer's own lines say.
ghost use Rattle.std.specs.Prelude.{◌≡◌, cond, ◌<◌, eqb, get_or};
ghost use Rattle.sheet_rules.specs.Folds.{any_below};
ghost use Rattle.service_rules.specs.Services.{has, capability_lines};
ghost use Rattle.service_rules.specs.Negotiation.{negotiated_lines, union_of};

use crate::{Lines, sets};

// What the device offers on each line: those of the first field, then those of the second.
pub fn offered_lines() -> Lines
    ensures { result ≡ capability_lines }
{
    [
        0, 0, 0, 0, 0, 0, 0, 1, 1, 1, 1, 1, 1, 1, 1, 1, 0x0401, 1, 1, 1, 1, 0x1001, 1, 0x4000, 0,
        0, 0, 0, 0, 0, 0, 1, 1, 1, 1, 1, 1, 1, 1, 1, 1, 1, 1, 1, 1, 0x1001, 1, 0,
    ]
}

// What is asked for on a line.
fn asked_at(set: u16, line: u16) -> u16
    ensures { result ≡ cond (eqb set 0) line set }
{
    if set == 0 { line } else { set }
}

// The lines that answer a set of services, or where it is empty the sets asked for on each line. A `for`, for speed: by
// `from_fn`, which was tried, services took 893 instructions in place of 862.
pub fn negotiate(set: u16, asked: &Lines) -> Lines
    ensures { result ≡ negotiated_lines set asked.now }
{
    let offered = offered_lines();
    let mut lines: Lines = [0; 48];
    for k in 0..48 {
        lines[k] = sets::common(asked_at(set, asked[k]), offered[k]);
    }
    lines
}

// Whether a service is on one of the lines. Each is looked at, for speed: with no way out of the loop the compiler looks at many at once.
fn on_a_line(lines: &Lines, bit: u16) -> bool
    requires { 0 < bit }
    ensures { result ≡ any_below 48 (λ k. has (get_or lines.now k 0) bit) }
{
    let mut found = false;
    for line in lines {
        found |= sets::has(*line, bit);
    }
    found
}

// The union of the lines.
pub fn union_of(lines: &Lines) -> u16
    ensures { result ≡ union_of lines.now }
{
    sets::gather(|bit| on_a_line(lines, bit))
}
