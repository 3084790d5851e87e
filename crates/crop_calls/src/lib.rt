// CROPCAP, G_CROP and S_CROP. Each takes an argument of the length that its word says, and answers any other as far as it reaches.
// Inlined where the length of the argument was tested, for speed: the compiler then knows it.
#![tactic(auto)]

ghost use Rattle.std.specs.Prelude.{◌≡◌};
ghost use Rattle.ioctl_table.specs.Refusal.{number_of};
ghost use Rattle.device_state.specs.Setup.{setup_in};
ghost use Rattle.device_state.specs.State.{State, with_setup};
ghost use Rattle.device_state.specs.Answers.{answer};
ghost use Rattle.crop_calls.specs.Crops.{asked_crop, cropcap_of, g_crop_of, s_crop_of};

use device_state::SetupWords;
use ioctl_table::Refusal;
use sheet_geometry::Rect;

// The rectangle that an argument asks for.
fn asked(argument: &[u8]) -> Rect
    ensures { result ≡ asked_crop argument.now }
{
    Rect {
        left: wire_signed::signed_at(argument, 4),
        top: wire_signed::signed_at(argument, 8),
        width: wire_signed::signed_at(argument, 12),
        height: wire_signed::signed_at(argument, 16),
    }
}

// Bounds, default and pixel aspect.
#[inline(always)]
pub fn cropcap(sheet: &[u8], argument: &mut [u8]) -> Result<(), Refusal>
    ensures { (d : State) → answer (number_of result) d argument.new ≡ cropcap_of sheet.now d argument.old }
{
    if wire_read::word_at(argument, 0) != 1 {
        return Err(Refusal::WrongType);
    }
    crop_replies::put_crop_capability(argument, sheet);
    Ok(())
}

// The present crop.
#[inline(always)]
pub fn g_crop(setup: &SetupWords, argument: &mut [u8]) -> Result<(), Refusal>
    ensures { (d : State) → answer (number_of result) (with_setup d (setup_in setup.now)) argument.new
        ≡ g_crop_of (with_setup d (setup_in setup.now)) argument.old }
{
    if wire_read::word_at(argument, 0) != 1 {
        return Err(Refusal::WrongType);
    }
    crop_replies::put_crop(argument, device_crop::crop_in(setup));
    Ok(())
}

// Another crop, brought inside the bounds, with the fields apart. The request is write-only: its argument stays.
#[inline(always)]
pub fn s_crop(sheet: &[u8], setup: &mut SetupWords, argument: &[u8]) -> Result<(), Refusal>
    ensures { (d : State) → answer (number_of result) (with_setup d (setup_in setup.new)) argument.now
        ≡ s_crop_of sheet.now (with_setup d (setup_in setup.old)) argument.now }
{
    if wire_read::word_at(argument, 0) != 1 {
        return Err(Refusal::WrongType);
    }
    let r = crop_rules::clamp(sheet_crop::crop_bounds(sheet), asked(argument));
    device_crop::keep_crop(setup, r);
    Ok(())
}
