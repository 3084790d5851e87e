// Whether a slice is a good device sheet: its table of contents, its identity and formats, and all four bodies.
#![tactic(auto)]

ghost use Rattle.std.specs.Prelude.{◌≡◌};
ghost use Rattle.sheet_rules.specs.Rules.{contents_ok, identity_ok, known_code, new_code, format_ok, formats_ok, bodies_ok, good_sheet};

// The table of contents.
fn contents_ok(s: &[u8]) -> bool
    ensures { result ≡ contents_ok s.now }
{
    let f = sheet_contents::format_count(s) as u64;
    let c = sheet_contents::control_count(s) as u64;
    (wire_read::word_at(s, 0) == 32)
        & (wire_read::word_at(s, 4) == 1)
        & (wire_read::word_at(s, 8) == 116)
        & (1 <= f)
        & (f <= 9)
        & (wire_read::word_at(s, 16) as u64 == 116 + 36 * f)
        & (wire_read::word_at(s, 20) == 1)
        & (wire_read::word_at(s, 24) as u64 == 184 + 36 * f)
        & (c <= 32)
        & (s.len() as u64 == 184 + 36 * f + 68 * c)
}

// Driver, card and bus.
fn identity_ok(s: &[u8]) -> bool
    ensures { result ≡ identity_ok s.now }
{
    let at = wire_read::word_at(s, 0) as usize;
    sheet_rules::has_zero(wire_read::part(s, at, 16))
        & sheet_rules::has_zero(wire_read::part(s, at + 16, 32))
        & sheet_rules::has_zero(wire_read::part(s, at + 48, 32))
}

// One of the nine codes.
fn known_code(c: u32) -> bool
    ensures { result ≡ known_code c }
{
    matches!(
        c,
        0x59455247
            | 0x56595559
            | 0x59565955
            | 0x50424752
            | 0x33424752
            | 0x33524742
            | 0x32315559
            | 0x32315659
            | 0x3231564E
    )
}

// Whether format k has a code of its own among those before it.
fn new_code(s: &[u8], k: u32) -> bool
    ensures { result ≡ new_code s.now k k }
{
    let c = sheet_records::format_code(s, k);
    (0..k).all(|j| sheet_records::format_code(s, j) != c)
}

// Format k.
fn format_ok(s: &[u8], k: u32) -> bool
    ensures { result ≡ format_ok s.now k }
{
    known_code(sheet_records::format_code(s, k))
        & new_code(s, k)
        & sheet_rules::has_zero(sheet_records::format_description(s, k))
}

// The first n formats.
fn formats_ok(s: &[u8], n: u32) -> bool
    ensures { result ≡ formats_ok s.now n }
{
    (0..n).all(|k| format_ok(s, k))
}

// The four bodies.
fn bodies_ok(s: &[u8]) -> bool
    ensures { result ≡ bodies_ok s.now }
{
    identity_ok(s)
        & formats_ok(s, sheet_contents::format_count(s))
        & sheet_geometry_check::geometry_ok(s)
        & sheet_control_check::controls_ok(s, sheet_contents::control_count(s))
}

// Whether the bytes are a good device sheet. The bodies are looked at only where the table of contents is right, so that a
// damaged count cannot make the check long.
pub fn good_sheet(s: &[u8]) -> bool
    ensures { result ≡ good_sheet s.now }
{
    if contents_ok(s) { bodies_ok(s) } else { false }
}
