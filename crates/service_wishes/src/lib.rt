// The services that an argument asks for.
#![tactic(auto)]

ghost use Rattle.std.specs.Prelude.{◌≡◌};
ghost use Rattle.service_replies.specs.Halves.{half_at};
ghost use Rattle.service_replies.specs.Services.{lines_at, asked_services};

use service_rules::Lines;

// The number of 16 bits at a place; bytes past the end count as 0.
fn half_at(s: &[u8], at: usize) -> u16
    ensures { result ≡ half_at s.now at }
{
    (wire_read::word_at(s, at) % 65536) as u16
}

// The sets of the lines. By a `for`, and inlined as what calls it is, for speed: `from_fn`, which was tried, stays a call of its own, which does not
// know the length.
#[inline(always)]
fn asked_lines(argument: &[u8]) -> Lines
    ensures { result ≡ lines_at argument.now 6 }
{
    let mut lines: Lines = [0; 48];
    for k in 0..48 {
        lines[k] = half_at(argument, 6 + 2 * k);
    }
    lines
}

// The lines that answer what the argument of S_FMT or TRY_FMT asks for. Inlined where the length of the argument was tested, for speed: the compiler
// then knows it, and reads many lines at once.
#[tactic(auto, unfolding(service_replies::specs::Services::asked_services))]
#[inline(always)]
pub fn asked_services(argument: &[u8]) -> Lines
    ensures { result ≡ asked_services argument.now }
{
    let lines = asked_lines(argument);
    service_rules::negotiate(half_at(argument, 4), &lines)
}
