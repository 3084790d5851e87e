// Whether the controls of a sheet keep the rules.
#![tactic(auto)]

ghost use Rattle.std.specs.Prelude.{◌≡◌};
ghost use Rattle.sheet_records.specs.Records.{limits_of};
ghost use Rattle.sheet_rules.specs.Rules.{limits_ok, control_ok, rising_at, controls_ok};

// The four numbers of control k, which is of a kind.
fn limits_ok(s: &[u8], k: u32, kind: u32) -> bool
    ensures { result ≡ limits_ok kind (limits_of s.now k) }
{
    let at = sheet_contents::control_at(s, k);
    let lo = wire_read::word_at(s, at + 40);
    let hi = wire_read::word_at(s, at + 44);
    let step = wire_read::word_at(s, at + 48);
    (kind == 4)
        | (sheet_rules::grid_ok(lo, hi, step, wire_read::word_at(s, at + 52))
            & ((kind != 2) | ((lo == 0) & (hi == 1) & (step == 1)))
            & ((kind != 3) | ((lo == 0) & (step == 1))))
}

// Control k by itself.
fn control_ok(s: &[u8], k: u32) -> bool
    ensures { result ≡ control_ok s.now k }
{
    let at = sheet_contents::control_at(s, k);
    let kind = wire_read::word_at(s, at + 4);
    (sheet_controls::control_id(s, k) < 0x8000_0000)
        & (1 <= kind)
        & (kind <= 4)
        & sheet_rules::has_zero(wire_read::part(s, at + 8, 32))
        & limits_ok(s, k, kind)
        & (wire_read::word_at(s, at + 56) <= 7)
        & (wire_read::word_at(s, at + 60) == 0)
        & (wire_read::word_at(s, at + 64) == 0)
}

// Whether the id of control k is above the one before.
fn rising(s: &[u8], k: u32) -> bool
    ensures { result ≡ rising_at s.now k }
{
    if k == 0 {
        return true;
    }
    sheet_controls::control_id(s, k - 1) < sheet_controls::control_id(s, k)
}

// The first n controls.
pub fn controls_ok(s: &[u8], n: u32) -> bool
    ensures { result ≡ controls_ok s.now n }
{
    (0..n).all(|k| control_ok(s, k) & rising(s, k))
}
