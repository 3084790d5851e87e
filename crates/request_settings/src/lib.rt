// The requests about the device, its formats and services, and its crop: the argument's length is tested, and the call goes to its handler.
#![tactic(auto)]

ghost use Rattle.std.specs.Prelude.{◌≡◌};
ghost use Rattle.request_topics.specs.declared.About.TheVariants.{Settings};
ghost use Rattle.ioctl_table.specs.Refusal.{number_of};
ghost use Rattle.device_state.specs.Setup.{setup_in};
ghost use Rattle.device_state.specs.State.{State, with_settings};
ghost use Rattle.device_state.specs.Answers.{answer};
ghost use Rattle.request_topics.specs.Request.{on_topic};

mod by_type;

use device_state::SetupWords;
use ioctl_table::{Call, Refusal};
use service_rules::Lines;

// A call about the device, its formats and services, and its crop, with any argument; so many buffers are granted to pictures and to
// captions. Each arm tests the length against a number of its own, for speed: the compiler then knows it in all that the arm calls.
pub fn setting_request(
    call: Call,
    sheet: &[u8],
    setup: &mut SetupWords,
    services: &mut Lines,
    pictures: u64,
    captions: u64,
    argument: &mut [u8],
) -> Result<(), Refusal>
    ensures { (d : State) → d.video.queues.granted ≡ pictures → d.captions.queues.granted ≡ captions → answer (number_of result) (with_settings d (setup_in setup.new) services.new) argument.new
        ≡ on_topic Settings call sheet.now (with_settings d (setup_in setup.old) services.old) argument.old }
{
    match call {
        Call::Querycap => {
            request_topics::of_length(argument, 104)?;
            format_calls::querycap(sheet, argument);
            Ok(())
        }
        Call::EnumFmt => {
            request_topics::of_length(argument, 64)?;
            format_calls::enum_fmt(sheet, argument)
        }
        Call::GFmt => {
            request_topics::of_length(argument, 204)?;
            by_type::g_fmt(setup, services, argument)
        }
        Call::SFmt => {
            request_topics::of_length(argument, 204)?;
            by_type::s_fmt(sheet, setup, services, pictures, captions, argument)
        }
        Call::TryFmt => {
            request_topics::of_length(argument, 204)?;
            by_type::try_fmt(sheet, argument)
        }
        Call::Cropcap => {
            request_topics::of_length(argument, 44)?;
            crop_calls::cropcap(sheet, argument)
        }
        Call::GCrop => {
            request_topics::of_length(argument, 20)?;
            crop_calls::g_crop(setup, argument)
        }
        Call::SCrop => {
            request_topics::of_length(argument, 20)?;
            crop_calls::s_crop(sheet, setup, argument)
        }
        Call::GSlicedVbiCap => {
            request_topics::of_length(argument, 116)?;
            service_calls::g_sliced_vbi_cap(argument)
        }
        _ => Err(Refusal::UnknownWord),
    }
}
