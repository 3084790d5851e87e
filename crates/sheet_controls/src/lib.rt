// The controls of a sheet: 68 bytes each, as v4l2_queryctrl.
#![tactic(auto)]

ghost use Rattle.std.specs.Prelude.{◌≡◌};
ghost use Rattle.sheet_records.specs.Records.{control_id, limits_at, control_fields};

use sheet_records::{Control, Limits};

// The id of control k.
pub fn control_id(s: &[u8], k: u32) -> u32
    ensures { result ≡ control_id s.now k }
{
    wire_read::word_at(s, sheet_contents::control_at(s, k))
}

// The four numbers of a control whose bytes these are.
fn limits(b: &[u8]) -> Limits
    ensures { result ≡ limits_at b.now 0 }
{
    Limits {
        minimum: wire_signed::signed_at(b, 40),
        maximum: wire_signed::signed_at(b, 44),
        step: wire_signed::signed_at(b, 48),
        initial: wire_signed::signed_at(b, 52),
    }
}

// The fields of control k, from a copy of its bytes over zeros: one test serves all of them. Inlined, for speed: what is not asked for is not read.
#[inline(always)]
pub fn control_fields(s: &[u8], k: u32) -> Control
    ensures { result ≡ control_fields s.now k }
{
    let mut b = [0u8; 68];
    wire_copy::put_part(&mut b, 0, s, sheet_contents::control_at(s, k), 68);
    Control {
        id: wire_read::word_at(&b, 0),
        kind: wire_read::word_at(&b, 4),
        flags: wire_read::word_at(&b, 56),
        limits: limits(&b),
    }
}
