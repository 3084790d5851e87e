// The bytes of answers about the device and its formats, stored over the argument from its start. Reserved fields are zero.
#![tactic(auto)]

ghost use Rattle.std.specs.Prelude.{◌≡◌};
ghost use Rattle.std.proofs.lemmas.List.Edits.{sets};
ghost use Rattle.format_replies.specs.Replies.{capability_reply, description_reply};

// QUERYCAP: identity and version from the sheet, capabilities, reserved words. The pieces go straight into the argument, over zeros.
pub fn put_capability(argument: &mut [u8], sheet: &[u8])
    ensures { argument.new ≡ sets argument.old 0 (capability_reply sheet.now) }
{
    let zeros = [0u8; 104];
    wire_copy::put_bytes(argument, 0, &zeros);
    wire_copy::put_part(argument, 0, sheet, sheet_contents::identity_at(sheet), 84);
    wire_store::put_word(argument, 84, 0x0400_0041);
}

// ENUM_FMT: format k of the sheet. Inlined where the length of the argument was tested, for speed: the compiler then knows it. The code is read where
// it stands, at the start of the record, for speed too: `format_code` would be a call.
#[inline(always)]
pub fn put_description(argument: &mut [u8], sheet: &[u8], k: u32)
    ensures { argument.new ≡ sets argument.old 0 (description_reply sheet.now k) }
{
    let at = sheet_contents::format_at(sheet, k);
    let zeros = [0u8; 64];
    let words = [k, 1];
    wire_copy::put_bytes(argument, 0, &zeros);
    wire_store::put_words(argument, 0, &words);
    wire_copy::put_part(argument, 12, sheet, at + 4, 32);
    wire_store::put_word(argument, 44, wire_read::word_at(sheet, at));
}
