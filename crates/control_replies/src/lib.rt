// The bytes of answers about controls, stored over the argument from its start.
#![tactic(auto)]

ghost use Rattle.std.specs.Prelude.{◌≡◌};
ghost use Rattle.std.proofs.lemmas.List.Edits.{sets};
ghost use Rattle.control_replies.specs.Replies.{control_reply, value_reply};

// QUERYCTRL: control k as the sheet has it.
pub fn put_control(argument: &mut [u8], sheet: &[u8], k: u32)
    ensures { argument.new ≡ sets argument.old 0 (control_reply sheet.now k) }
{
    wire_copy::put_part(argument, 0, sheet, sheet_contents::control_at(sheet, k), 68);
}

// G_CTRL and S_CTRL: the id and the 32 bits of the value.
pub fn put_value(argument: &mut [u8], id: u32, value: u32)
    ensures { argument.new ≡ sets argument.old 0 (value_reply id value) }
{
    let words = [id, value];
    wire_store::put_words(argument, 0, &words);
}
