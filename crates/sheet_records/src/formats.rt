// The formats of a sheet: 36 bytes each, code and description.
ghost use Rattle.std.specs.Prelude.{◌≡◌};
ghost use Rattle.sheet_records.specs.Records.{format_code, format_description};

// The four-character code of format k, its first letter in the lowest byte.
pub fn format_code(s: &[u8], k: u32) -> u32
    ensures { result ≡ format_code s.now k }
{
    wire_read::word_at(s, sheet_contents::format_at(s, k))
}

// The 32 bytes that describe format k.
pub fn format_description(s: &[u8], k: u32) -> &[u8]
    ensures { result.now ≡ format_description s.now k }
{
    let at = sheet_contents::format_at(s, k);
    wire_read::part(s, at + 4, 32)
}
