// S_FMT and TRY_FMT of pictures, whose type whoever calls them has tested. Each takes an argument of the length that its word says, and
// answers any other as far as it reaches.
// Inlined where the length of the argument was tested, for speed: the compiler then knows it.
#![tactic(auto)]

ghost use Rattle.std.specs.Prelude.{◌≡◌};
ghost use Rattle.ioctl_table.specs.Refusal.{number_of};
ghost use Rattle.negotiation_rules.specs.Negotiation.{negotiated};
ghost use Rattle.device_state.specs.Setup.{setup_in};
ghost use Rattle.device_state.specs.State.{State, with_setup};
ghost use Rattle.device_state.specs.Answers.{answer};
ghost use Rattle.negotiation_calls.specs.Negotiations.{picture_of, s_fmt_of, try_fmt_of};

use device_state::SetupWords;
use format_rules::Format;
use ioctl_table::Refusal;

// A format with its line and image size.
#[derive(Clone, Copy)]
struct Picture {
    format: Format,
    line: u32,
    size: u32,
}

// A format that is asked for, as near as the sheet allows. The argument does not come in, for speed: whoever reads and stores it knows its length, and
// so does the compiler there.
fn pictured(sheet: &[u8], asked: Format) -> Picture
    ensures { result ≡ picture_of sheet.now (negotiated sheet.now asked) }
{
    let format = negotiation_rules::negotiate(sheet, asked);
    let alignment = sheet_geometry::line_alignment(sheet);
    let line = format_rules::bytes_per_line(format, alignment);
    let size = format_rules::image_size(format, alignment);
    Picture { format, line, size }
}

// Another format, while there are no buffers; so many are granted.
#[inline(always)]
pub fn s_fmt(
    sheet: &[u8],
    setup: &mut SetupWords,
    granted: u64,
    argument: &mut [u8],
) -> Result<(), Refusal>
    ensures { (d : State) → d.video.queues.granted ≡ granted → answer (number_of result) (with_setup d (setup_in setup.new)) argument.new
        ≡ s_fmt_of sheet.now (with_setup d (setup_in setup.old)) argument.old }
{
    if granted != 0 {
        return Err(Refusal::BuffersExist);
    }
    let p = pictured(sheet, negotiation_rules::asked(argument));
    let f = p.format;
    negotiation_replies::put_format(argument, 1, f, p.line, p.size);
    device_setup::keep_format(setup, f, p.line, p.size);
    Ok(())
}

// The format that S_FMT would set.
#[inline(always)]
pub fn try_fmt(sheet: &[u8], argument: &mut [u8])
    ensures { (d : State) → answer 0 d argument.new ≡ try_fmt_of sheet.now d argument.old }
{
    let p = pictured(sheet, negotiation_rules::asked(argument));
    let f = p.format;
    negotiation_replies::put_format(argument, 1, f, p.line, p.size);
}
