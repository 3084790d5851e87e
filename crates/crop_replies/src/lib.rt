// The bytes of answers about the crop, stored over the argument from its start.
#![tactic(auto)]

ghost use Rattle.std.specs.Prelude.{◌≡◌};
ghost use Rattle.std.proofs.lemmas.List.Edits.{sets};
ghost use Rattle.crop_replies.specs.Replies.{rect_words, crop_reply, crop_capability_reply};

use sheet_geometry::Rect;

// The four words of a rectangle.
fn rect_words(r: Rect) -> [u32; 4]
    ensures { result ≡ rect_words r }
{
    [
        wire_signed::as_bits(r.left),
        wire_signed::as_bits(r.top),
        wire_signed::as_bits(r.width),
        wire_signed::as_bits(r.height),
    ]
}

// G_CROP: the rectangle.
pub fn put_crop(argument: &mut [u8], r: Rect)
    ensures { argument.new ≡ sets argument.old 0 (crop_reply r) }
{
    let w = rect_words(r);
    let words = [1, w[0], w[1], w[2], w[3]];
    wire_store::put_words(argument, 0, &words);
}

// CROPCAP: bounds, default and pixel aspect. They stand together in the sheet, 28 bytes behind the start of its geometry and in the order of the answer, so that
// they are copied as they are; where the sheet ends early the zeros stay. Inlined where the length of the argument was tested, for speed.
#[inline(always)]
pub fn put_crop_capability(argument: &mut [u8], sheet: &[u8])
    ensures { argument.new ≡ sets argument.old 0 (crop_capability_reply sheet.now) }
{
    let at = sheet_contents::geometry_at(sheet);
    let zeros = [0u8; 40];
    wire_store::put_word(argument, 0, 1);
    wire_copy::put_bytes(argument, 4, &zeros);
    wire_copy::put_part(argument, 4, sheet, at + 28, 40);
}
