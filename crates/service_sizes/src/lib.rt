// The io size of caption lines.
#![tactic(auto)]

ghost use Rattle.std.specs.Prelude.{◌≡◌};
ghost use Rattle.service_rules.specs.Negotiation.{io_size};

use service_rules::Lines;

// The io size: 64 bytes for each line that carries something.
pub fn io_size(lines: &Lines) -> u32
    ensures { result ≡ io_size lines.now }
{
    let mut n: u32 = 0;
    for line in lines {
        n += u32::from(*line != 0);
    }
    64 * n
}
