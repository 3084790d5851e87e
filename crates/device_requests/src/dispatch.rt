// Requests.
ghost use Rattle.std.specs.Prelude.{◌≡◌};
ghost use Rattle.ioctl_table.specs.Refusal.{number_of};
ghost use Rattle.device_state.specs.State.{state_in};
ghost use Rattle.device_state.specs.Answers.{answer};
ghost use Rattle.request_topics.specs.Request.{checked_answer, request_answer};

use control_value_rules::Values;
use device_state::SetupWords;
use ioctl_table::{Call, Refusal};
use request_topics::About;
use service_rules::Lines;
use stream_words::Words;

// A call, with any argument.
fn called(
    call: Call,
    sheet: &[u8],
    setup: &mut SetupWords,
    values: &mut Values,
    services: &mut Lines,
    video: &mut Words,
    captions: &mut Words,
    argument: &mut [u8],
) -> Result<(), Refusal>
    ensures { answer (number_of result) (state_in setup.new values.new services.new video.new captions.new) argument.new
        ≡ checked_answer call sheet.now (state_in setup.old values.old services.old video.old captions.old) argument.old }
{
    match request_topics::topic(call) {
        Some(About::Settings) => request_settings::setting_request(
            call,
            sheet,
            setup,
            services,
            video[stream_words::GRANTED],
            captions[stream_words::GRANTED],
            argument,
        ),
        Some(About::Streams) => request_streams::stream_request(
            call,
            setup[device_state::SIZE],
            services,
            video,
            captions,
            argument,
        ),
        Some(About::Controls) => request_controls::control_request(call, sheet, values, argument),
        None => Err(Refusal::UnknownWord),
    }
}

// A request: any word, any argument.
pub fn request(
    sheet: &[u8],
    setup: &mut SetupWords,
    values: &mut Values,
    services: &mut Lines,
    video: &mut Words,
    captions: &mut Words,
    word: u32,
    argument: &mut [u8],
) -> Result<(), Refusal>
    ensures { answer (number_of result) (state_in setup.new values.new services.new video.new captions.new) argument.new
        ≡ request_answer sheet.now (state_in setup.old values.old services.old video.old captions.old) word argument.old }
{
    if setup[device_state::READY] == 0 {
        return Err(Refusal::Closed);
    }
    let r = ioctl_table::lookup(word);
    called(
        r.call, sheet, setup, values, services, video, captions, argument,
    )
}
