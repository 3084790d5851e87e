// Text fields: names of a fixed length that end with a zero byte.
ghost use Rattle.std.specs.Prelude.{◌≡◌};
ghost use Rattle.sheet_rules.specs.Rules.{has_zero};

// Whether one of the bytes is zero. With `contains` in place of the loop the check of a sheet took 5 in a hundred more instructions.
pub fn has_zero(t: &[u8]) -> bool
    ensures { result ≡ has_zero t.now }
{
    let mut found = false;
    for b in t {
        found |= *b == 0;
    }
    found
}
