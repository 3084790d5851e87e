// QUERYCAP, ENUM_FMT, and G_FMT of pictures, whose type whoever calls it has tested. Each takes an argument of the length that its word says, and answers any other as far as it reaches.
// Inlined where the length of the argument was tested, for speed: the compiler then knows it.
#![tactic(auto)]

ghost use Rattle.std.specs.Prelude.{◌≡◌};
ghost use Rattle.ioctl_table.specs.Refusal.{number_of};
ghost use Rattle.device_state.specs.Setup.{setup_in};
ghost use Rattle.device_state.specs.State.{State, with_setup};
ghost use Rattle.device_state.specs.Answers.{answer};
ghost use Rattle.format_calls.specs.Formats.{querycap_of, enum_fmt_of, g_fmt_of};

use device_state::SetupWords;
use ioctl_table::Refusal;

// What the device is.
#[inline(always)]
pub fn querycap(sheet: &[u8], argument: &mut [u8])
    ensures { (d : State) → answer 0 d argument.new ≡ querycap_of sheet.now d argument.old }
{
    format_replies::put_capability(argument, sheet);
}

// The format of an index.
#[inline(always)]
pub fn enum_fmt(sheet: &[u8], argument: &mut [u8]) -> Result<(), Refusal>
    ensures { (d : State) → answer (number_of result) d argument.new ≡ enum_fmt_of sheet.now d argument.old }
{
    let k = wire_read::word_at(argument, 0);
    if wire_read::word_at(argument, 4) != 1 {
        return Err(Refusal::WrongType);
    }
    if sheet_contents::format_count(sheet) <= k {
        return Err(Refusal::NoSuchIndex);
    }
    format_replies::put_description(argument, sheet, k);
    Ok(())
}

// The present format.
#[inline(always)]
pub fn g_fmt(setup: &SetupWords, argument: &mut [u8])
    ensures { (d : State) → answer 0 (with_setup d (setup_in setup.now)) argument.new
        ≡ g_fmt_of (with_setup d (setup_in setup.now)) argument.old }
{
    let f = device_setup::format_in(setup);
    negotiation_replies::put_format(
        argument,
        1,
        f,
        setup[device_state::LINE],
        setup[device_state::SIZE],
    );
}
