// The values of controls at opening.
#![tactic(auto)]

ghost use Rattle.std.specs.Prelude.{◌≡◌};
ghost use Rattle.control_value_rules.specs.Values.{opening_values};

use control_value_rules::Values;

// The defaults of the sheet's controls, then zeros.
pub fn at_opening(s: &[u8]) -> Values
    ensures { result ≡ opening_values s.now }
{
    let mut values = [0u32; 32];
    for k in 0..control_place_rules::count(s) {
        let at = sheet_contents::control_at(s, k);
        values[k as usize] = wire_read::word_at(s, at + 52);
    }
    values
}
