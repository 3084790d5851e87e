// What the device makes of a format that a client asks for.
ghost use Rattle.std.specs.Prelude.{◌≡◌};
ghost use Rattle.negotiation_rules.specs.Negotiation.{offers_among, offered, chosen_code, negotiated, opening_format, asked_format};

use format_rules::Format;

// Whether one of the sheet's formats has the code. A good sheet has at most nine, and no more are looked at. A loop and no `any`: the
// gate allows each loop that S_FMT reaches by the name of its function (request A3, tools/loops), and that of `any` would be allowed everywhere.
fn offers(s: &[u8], code: u32) -> bool
    ensures { result ≡ offers_among s.now code (offered s.now) }
{
    let mut found = false;
    for k in 0..sheet_contents::format_count(s).min(9) {
        found |= sheet_records::format_code(s, k) == code;
    }
    found
}

// The code asked for where the sheet has it, else that of the first format.
fn chosen(s: &[u8], code: u32) -> u32
    ensures { result ≡ chosen_code s.now code }
{
    if offers(s, code) {
        return code;
    }
    sheet_records::format_code(s, 0)
}

// The nearest allowed sizes and a code of the sheet.
pub fn negotiate(s: &[u8], asked: Format) -> Format
    ensures { result ≡ negotiated s.now asked }
{
    Format {
        width: grid_rules::nearest_size(sheet_geometry::widths(s), asked.width),
        height: grid_rules::nearest_size(sheet_geometry::heights(s), asked.height),
        code: chosen(s, asked.code),
    }
}

// The format of a device just opened: the first code, the greatest size.
pub fn at_opening(s: &[u8]) -> Format
    ensures { result ≡ opening_format s.now }
{
    let w = sheet_geometry::widths(s);
    let h = sheet_geometry::heights(s);
    Format {
        width: w.greatest,
        height: h.greatest,
        code: sheet_records::format_code(s, 0),
    }
}

// The format that the argument of S_FMT or TRY_FMT asks for. Its bytes per line are not looked at.
pub fn asked(argument: &[u8]) -> Format
    ensures { result ≡ asked_format argument.now }
{
    Format {
        width: wire_read::word_at(argument, 4),
        height: wire_read::word_at(argument, 8),
        code: wire_read::word_at(argument, 12),
    }
}
