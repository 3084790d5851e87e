// What each call answers (specs/Request.antt), what it is about, and how long its argument is.
#![tactic(auto)]

ghost use Rattle.std.specs.Prelude.{◌≡◌, length, OkIff, IfErr};
ghost use Rattle.ioctl_table.specs.declared.refusals.Refusal.TheVariants.{ArgumentLength};
ghost use Rattle.request_topics.specs.Request.{topic_of};

use ioctl_table::{Call, Refusal};

// The topics: the device with its formats, services and crop; the streams; the controls.
#[derive(Clone, Copy)]
pub enum About {
    Settings,
    Streams,
    Controls,
}

// The topic of a call; an unknown word has none.
pub fn topic(call: Call) -> Option<About>
    ensures { result ≡ topic_of call }
{
    match call {
        Call::Unknown => None,
        Call::Querycap => Some(About::Settings),
        Call::EnumFmt => Some(About::Settings),
        Call::GFmt => Some(About::Settings),
        Call::SFmt => Some(About::Settings),
        Call::TryFmt => Some(About::Settings),
        Call::Reqbufs => Some(About::Streams),
        Call::Querybuf => Some(About::Streams),
        Call::Qbuf => Some(About::Streams),
        Call::Dqbuf => Some(About::Streams),
        Call::Streamon => Some(About::Streams),
        Call::Streamoff => Some(About::Streams),
        Call::GCtrl => Some(About::Controls),
        Call::SCtrl => Some(About::Controls),
        Call::Queryctrl => Some(About::Controls),
        Call::Cropcap => Some(About::Settings),
        Call::GCrop => Some(About::Settings),
        Call::SCrop => Some(About::Settings),
        Call::GSlicedVbiCap => Some(About::Settings),
    }
}

// An argument has the length of its call, or is refused. Each call hands in a number of its own, for speed: the compiler then knows the length in all
// that the call reads and writes.
pub fn of_length(argument: &[u8], n: usize) -> Result<(), Refusal>
    ensures of_length { OkIff result (length argument.now ≡ n) tt }
    ensures refused { IfErr result (λ why. why ≡ ArgumentLength) }
{
    if argument.len() != n {
        return Err(Refusal::ArgumentLength);
    }
    Ok(())
}
