// A call on a stream, by the type that its argument names: the call goes to the stream of that type, with the size of its frames.
ghost use Rattle.std.specs.Prelude.{◌≡◌};
ghost use Rattle.ioctl_table.specs.Refusal.{number_of};
ghost use Rattle.stream_words.specs.Words.{stream_in};
ghost use Rattle.device_state.specs.State.{State, with_streams};
ghost use Rattle.device_state.specs.Answers.{answer};
ghost use Rattle.request_topics.specs.Request.{stream_call};

use crate::on_stream::OnStream;
use device_state::{CAPTIONS, Kind, PICTURES};
use ioctl_table::Refusal;
use service_rules::Lines;
use stream_words::Words;

// The call on the stream whose type the argument names at a place; pictures have this size, captions the io size of the services. It
// is inlined with the call, for speed: the compiler then knows the length of the argument, which was tested where this is called.
#[inline(always)]
pub(crate) fn by_type<C: OnStream>(
    at: usize,
    size: u32,
    services: &Lines,
    video: &mut Words,
    captions: &mut Words,
    argument: &mut [u8],
) -> Result<(), Refusal>
    ensures { (d : State) → d.size ≡ size → d.services ≡ services.now
        → answer (number_of result) (with_streams d (stream_in video.new) (stream_in captions.new)) argument.new
        ≡ stream_call C.answers at (with_streams d (stream_in video.old) (stream_in captions.old)) argument.old }
{
    match Kind::try_from(wire_read::word_at(argument, at))? {
        Kind::Pictures => C::call(video, PICTURES, size, argument),
        Kind::Captions => C::call(
            captions,
            CAPTIONS,
            service_sizes::io_size(services),
            argument,
        ),
    }
}
