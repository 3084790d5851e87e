// Frame arrivals, and the verdicts on the films. Requests are in the crate `device_requests`, planes in `device_planes`.
#![tactic(auto)]

ghost use Rattle.std.specs.Prelude.{◌≡◌, List, ℕ, length};
ghost use Rattle.stream_words.specs.Words.{stream_in};
ghost use Rattle.picture_rules.specs.Picture.{whole_picture};
ghost use Rattle.service_rules.specs.Negotiation.{io_size};
ghost use Rattle.caption_rules.specs.Caption.{whole_caption};
ghost use Rattle.stream_arrival.specs.Arrivals.{arrived_as, arrival_of, written_by};
ghost use Rattle.device_state.specs.State.{state_in};
ghost use Rattle.device_film.specs.Film.{taken, taken_of, taken_memory, device_verdict};

use device_state::{Kind, SetupWords};
use ioctl_table::Refusal;
use service_rules::Lines;
use stream_arrival::Arrival;
use stream_verdict::Verdict;
use stream_words::{Time, Words};

// A picture arrives at its stream.
fn picture(size: u32, video: &mut Words, memory: &mut [u8], frame: &[u8], time: Time) -> Arrival
    ensures video_after { arrived_as result (stream_in video.new) ≡ arrival_of (stream_in video.old) (length memory.old) (length frame.now) (whole_picture (length frame.now) size time) size time }
    ensures memory_after { memory.new ≡ written_by result size memory.old frame.now }
{
    let whole = picture_rules::whole_picture(frame.len() as u64, size, time);
    stream_arrival::arrive(video, memory, frame, whole, size, time)
}

// Captions arrive at theirs.
fn lines(
    services: &Lines,
    captions: &mut Words,
    memory: &mut [u8],
    frame: &[u8],
    time: Time,
) -> Arrival
    ensures captions_after { arrived_as result (stream_in captions.new) ≡ arrival_of (stream_in captions.old) (length memory.old) (length frame.now) (whole_caption services.now frame.now time) (io_size services.now) time }
    ensures memory_after { memory.new ≡ written_by result (io_size services.now) memory.old frame.now }
{
    let whole = caption_rules::whole_caption(services, frame, time);
    stream_arrival::arrive(
        captions,
        memory,
        frame,
        whole,
        service_sizes::io_size(services),
        time,
    )
}

// A frame of a type arrives, with the memory of its stream lent.
pub fn arrive(
    setup: &SetupWords,
    services: &Lines,
    video: &mut Words,
    captions: &mut Words,
    kind: u32,
    memory: &mut [u8],
    frame: &[u8],
    time: Time,
) -> Arrival
    ensures { (v : List ℕ) → (taken result (state_in setup.now v services.now video.new captions.new)
        ≡ taken_of (state_in setup.now v services.now video.old captions.old) kind (length memory.old) frame.now time)
        × (memory.new ≡ taken_memory (state_in setup.now v services.now video.old captions.old) kind memory.old frame.now time) }
{
    if setup[device_state::READY] == 0 {
        return Arrival::Refused(Refusal::Closed);
    }
    match Kind::try_from(kind) {
        Ok(Kind::Pictures) => picture(setup[device_state::SIZE], video, memory, frame, time),
        Ok(Kind::Captions) => lines(services, captions, memory, frame, time),
        Err(why) => Arrival::Refused(why),
    }
}

// What can be said of the film of the last run of a type.
pub fn verdict_of(setup: &SetupWords, video: &Words, captions: &Words, kind: u32) -> Verdict
    ensures { (v l : List ℕ) → result ≡ device_verdict (state_in setup.now v l video.now captions.now) kind }
{
    if setup[device_state::READY] == 0 {
        return Verdict::Blank;
    }
    match Kind::try_from(kind) {
        Ok(Kind::Pictures) => stream_verdict::film_verdict(video),
        Ok(Kind::Captions) => stream_verdict::film_verdict(captions),
        Err(_) => Verdict::Blank,
    }
}
