// The answer to G_FMT, S_FMT and TRY_FMT.
#![tactic(auto)]

ghost use Rattle.std.specs.Prelude.{◌≡◌};
ghost use Rattle.std.proofs.lemmas.List.Edits.{sets};
ghost use Rattle.negotiation_rules.specs.Answer.{format_reply};

use format_rules::Format;

// The 204 bytes stored in the argument: type, picture format, zeros. Bytes per line and image size come in: whoever keeps them need not compute them again.
pub fn put_format(argument: &mut [u8], kind: u32, f: Format, line: u32, size: u32)
    ensures { argument.new ≡ sets argument.old 0 (format_reply kind f line size) }
{
    let words = [
        kind,
        f.width,
        f.height,
        f.code,
        1,
        line,
        size,
        format_rules::colour_space(f.code),
        0,
    ];
    let mut b = [0u8; 204];
    wire_store::put_words(&mut b, 0, &words);
    wire_copy::put_bytes(argument, 0, &b);
}
