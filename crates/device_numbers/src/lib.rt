// What becomes of a frame, and the verdict on the film, in numbers: so a caller in C is told, and so are the programs.
#![tactic(auto)]

ghost use Rattle.std.specs.Prelude.{◌≡◌, List, ℕ, length};
ghost use Rattle.stream_words.specs.Words.{time_of};
ghost use Rattle.device_state.specs.State.{state_in};
ghost use Rattle.arrival_replies.specs.Answer.{told_of};
ghost use Rattle.device_film.specs.Film.{taken_of, taken_memory};
ghost use Rattle.device_numbers.specs.Told.{verdict_told};

use arrival_replies::Told;
use device_state::SetupWords;
use service_rules::Lines;
use stream_words::Words;

// A frame of a type arrives, with the memory of its stream lent; the time comes by its bits.
pub fn arrive(
    setup: &SetupWords,
    services: &Lines,
    video: &mut Words,
    captions: &mut Words,
    kind: u32,
    memory: &mut [u8],
    frame: &[u8],
    seconds: u32,
    microseconds: u32,
) -> Told
    ensures { (v : List ℕ) → (result ≡ told_of (taken_of (state_in setup.now v services.now video.old captions.old) kind (length memory.old) frame.now (time_of seconds microseconds)).arrival)
        × (state_in setup.now v services.now video.new captions.new ≡ (taken_of (state_in setup.now v services.now video.old captions.old) kind (length memory.old) frame.now (time_of seconds microseconds)).state)
        × (memory.new ≡ taken_memory (state_in setup.now v services.now video.old captions.old) kind memory.old frame.now (time_of seconds microseconds)) }
{
    let time = stream_frames::time_of(seconds, microseconds);
    let a = device_film::arrive(setup, services, video, captions, kind, memory, frame, time);
    Told::from(a)
}

// The verdict on the film of a type.
pub fn verdict(setup: &SetupWords, video: &Words, captions: &Words, kind: u32) -> u32
    ensures { (v l : List ℕ) → result ≡ verdict_told (state_in setup.now v l video.now captions.now) kind }
{
    let v = device_film::verdict_of(setup, video, captions, kind);
    u32::from(v)
}
