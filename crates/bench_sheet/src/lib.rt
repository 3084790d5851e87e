// The bench: a small good sheet, and the same with odd tops, for examples and runs of every layer.
#![tactic(auto)]

ghost use Rattle.std.specs.Prelude.{◌≡◌, true};
ghost use Rattle.sheet_rules.specs.Rules.{good_sheet};
ghost use Rattle.bench_sheet.specs.Bench.{bench_sheet, odd_sheet};

// A line for each field or row of words: contents, identity, two formats, geometry, one control.
const SHEET: [u8; 324] = *b"\
    \x20\0\0\0\x01\0\0\0\x74\0\0\0\x02\0\0\0\
    \xbc\0\0\0\x01\0\0\0\0\x01\0\0\x01\0\0\0\
    tollgutter\0\0\0\0\0\0\
    bench camera\0\0\0\0\0\0\0\0\0\0\0\0\0\0\0\0\0\0\0\0\
    bench:0\0\0\0\0\0\0\0\0\0\0\0\0\0\0\0\0\0\0\0\0\0\0\0\0\0\
    \0\0\x01\0\
    YUYVYUYV 4:2:2\0\0\0\0\0\0\0\0\0\0\0\0\0\0\0\0\0\0\0\0\0\0\
    YU12YUV 4:2:0 planar\0\0\0\0\0\0\0\0\0\0\0\0\0\0\0\0\
    \xa0\0\0\0\x80\x02\0\0\x10\0\0\0\
    \x78\0\0\0\xe0\x01\0\0\x02\0\0\0\
    \x40\0\0\0\
    \xf8\xff\xff\xff\0\0\0\0\x80\x02\0\0\x90\x01\0\0\
    \xf8\xff\xff\xff\0\0\0\0\x80\x02\0\0\x90\x01\0\0\
    \x01\0\0\0\x01\0\0\0\
    \x01\x09\x98\0\x01\0\0\0\
    Contrast\0\0\0\0\0\0\0\0\0\0\0\0\0\0\0\0\0\0\0\0\0\0\0\0\
    \xf6\xff\xff\xff\x0a\0\0\0\x04\0\0\0\xfe\xff\xff\xff\
    \0\0\0\0\0\0\0\0\0\0\0\0";

// The sheet's bytes.
pub type Bytes = [u8; 324];

// The bytes of the sheet, which keeps every rule of a sheet.
pub fn sheet() -> Bytes
    ensures { (result ≡ bench_sheet) × (good_sheet bench_sheet ≡ true) }
{
    SHEET
}

// The same with odd tops: the bounds from -7, and a default that begins a line further down. This one keeps every rule, too.
pub fn odd_sheet() -> Bytes
    ensures { (result ≡ odd_sheet) × (good_sheet odd_sheet ≡ true) }
{
    let mut bytes = SHEET;
    wire_store::put_word(&mut bytes, 220, 0xffff_fff9);
    wire_store::put_word(&mut bytes, 236, 0xffff_fffa);
    wire_store::put_word(&mut bytes, 244, 399);
    bytes
}
