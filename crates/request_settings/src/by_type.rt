// G_FMT, S_FMT and TRY_FMT, by the type that an argument names: pictures have a format, captions have services. All are inlined, for speed: the
// compiler then knows the length of the argument, which was tested where they are called.
ghost use Rattle.std.specs.Prelude.{◌≡◌, List, ℕ};
ghost use Rattle.ioctl_table.specs.Refusal.{number_of};
ghost use Rattle.ioctl_table.specs.declared.table.Call.TheVariants.{GFmt, SFmt, TryFmt};
ghost use Rattle.device_state.specs.Setup.{setup_in};
ghost use Rattle.device_state.specs.State.{State, with_settings};
ghost use Rattle.device_state.specs.Answers.{answer};
ghost use Rattle.request_topics.specs.Request.{call_answer};

use device_state::{CAPTIONS, Kind, SetupWords};
use ioctl_table::Refusal;
use service_rules::Lines;

// The format, or the services, in force.
#[inline(always)]
pub(crate) fn g_fmt(
    setup: &SetupWords,
    services: &Lines,
    argument: &mut [u8],
) -> Result<(), Refusal>
    ensures { (s : List ℕ) (d : State) → answer (number_of result) (with_settings d (setup_in setup.now) services.now) argument.new
        ≡ call_answer GFmt s (with_settings d (setup_in setup.now) services.now) argument.old }
{
    match Kind::try_from(wire_read::word_at(argument, 0))? {
        Kind::Pictures => format_calls::g_fmt(setup, argument),
        Kind::Captions => service_calls::g_fmt(services, CAPTIONS, argument),
    }
    Ok(())
}

// Another format, or other services, while that stream has no buffers; so many are granted to pictures and to captions.
#[inline(always)]
pub(crate) fn s_fmt(
    sheet: &[u8],
    setup: &mut SetupWords,
    services: &mut Lines,
    pictures: u64,
    captions: u64,
    argument: &mut [u8],
) -> Result<(), Refusal>
    ensures { (d : State) → d.video.queues.granted ≡ pictures → d.captions.queues.granted ≡ captions → answer (number_of result) (with_settings d (setup_in setup.new) services.new) argument.new
        ≡ call_answer SFmt sheet.now (with_settings d (setup_in setup.old) services.old) argument.old }
{
    match Kind::try_from(wire_read::word_at(argument, 0))? {
        Kind::Pictures => negotiation_calls::s_fmt(sheet, setup, pictures, argument),
        Kind::Captions => service_calls::s_fmt(services, CAPTIONS, captions, argument),
    }
}

// What S_FMT would set.
#[inline(always)]
pub(crate) fn try_fmt(sheet: &[u8], argument: &mut [u8]) -> Result<(), Refusal>
    ensures { (d : State) → answer (number_of result) d argument.new ≡ call_answer TryFmt sheet.now d argument.old }
{
    match Kind::try_from(wire_read::word_at(argument, 0))? {
        Kind::Pictures => negotiation_calls::try_fmt(sheet, argument),
        Kind::Captions => service_calls::try_fmt(CAPTIONS, argument),
    }
    Ok(())
}
