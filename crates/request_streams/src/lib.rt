// The requests about the streams. The argument's length is tested, then the type that it names, and the call goes to the stream of that
// type, of pictures or of captions.
#![tactic(auto)]

ghost use Rattle.std.specs.Prelude.{◌≡◌, List, ℕ};
ghost use Rattle.request_topics.specs.declared.About.TheVariants.{Streams};
ghost use Rattle.ioctl_table.specs.Refusal.{number_of};
ghost use Rattle.stream_words.specs.Words.{stream_in};
ghost use Rattle.device_state.specs.State.{State, with_streams};
ghost use Rattle.device_state.specs.Answers.{answer};
ghost use Rattle.request_topics.specs.Request.{on_topic};

mod by_type;
mod on_stream;

use by_type::by_type;
use ioctl_table::{Call, Refusal};
use on_stream::{Dqbuf, Qbuf, Querybuf, Reqbufs, Streamoff, Streamon};
use service_rules::Lines;
use stream_words::Words;

// Where the type stands in a buffer request and in a buffer, and in the argument of a switch.
const BUFFER_TYPE: usize = 4;

const SWITCH_TYPE: usize = 0;

// A call about the streams, with any argument: pictures have frames of this size, captions of the io size of the services. Each arm tests the
// length against a number of its own, for speed: the compiler then knows it in all that the arm calls.
pub fn stream_request(
    call: Call,
    size: u32,
    services: &Lines,
    video: &mut Words,
    captions: &mut Words,
    argument: &mut [u8],
) -> Result<(), Refusal>
    ensures { (s : List ℕ) (d : State) → d.size ≡ size → d.services ≡ services.now
        → answer (number_of result) (with_streams d (stream_in video.new) (stream_in captions.new)) argument.new
        ≡ on_topic Streams call s (with_streams d (stream_in video.old) (stream_in captions.old)) argument.old }
{
    match call {
        Call::Reqbufs => {
            request_topics::of_length(argument, 20)?;
            by_type::<Reqbufs>(BUFFER_TYPE, size, services, video, captions, argument)
        }
        Call::Querybuf => {
            request_topics::of_length(argument, 68)?;
            by_type::<Querybuf>(BUFFER_TYPE, size, services, video, captions, argument)
        }
        Call::Qbuf => {
            request_topics::of_length(argument, 68)?;
            by_type::<Qbuf>(BUFFER_TYPE, size, services, video, captions, argument)
        }
        Call::Dqbuf => {
            request_topics::of_length(argument, 68)?;
            by_type::<Dqbuf>(BUFFER_TYPE, size, services, video, captions, argument)
        }
        Call::Streamon => {
            request_topics::of_length(argument, 4)?;
            by_type::<Streamon>(SWITCH_TYPE, size, services, video, captions, argument)
        }
        Call::Streamoff => {
            request_topics::of_length(argument, 4)?;
            by_type::<Streamoff>(SWITCH_TYPE, size, services, video, captions, argument)
        }
        _ => Err(Refusal::UnknownWord),
    }
}
