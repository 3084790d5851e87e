// Buffers are mapped and unmapped, by the type of their stream. Requests are in the crate `device_requests`, arrivals in `device_film`.
#![tactic(auto)]

ghost use Rattle.std.specs.Prelude.{◌≡◌, List, ℕ};
ghost use Rattle.ioctl_table.specs.Refusal.{number_of};
ghost use Rattle.device_state.specs.State.{state_in};
ghost use Rattle.device_maps.specs.Mapping.{mapped, mapped_of};

use device_state::{Kind, SetupWords};
use ioctl_table::Refusal;
use service_rules::Lines;
use stream_maps::Change;
use stream_words::Words;

// A buffer of the stream of a type is mapped or unmapped.
pub fn change(
    setup: &SetupWords,
    services: &Lines,
    video: &mut Words,
    captions: &mut Words,
    c: Change,
    kind: u32,
    offset: u32,
    length: u32,
) -> Result<(), Refusal>
    ensures { (v : List ℕ) → mapped (number_of result) (state_in setup.now v services.now video.new captions.new)
        ≡ mapped_of c (state_in setup.now v services.now video.old captions.old) kind offset length }
{
    if setup[device_state::READY] == 0 {
        return Err(Refusal::Closed);
    }
    match Kind::try_from(kind)? {
        Kind::Pictures => stream_mmap::change(video, c, setup[device_state::SIZE], offset, length),
        Kind::Captions => stream_mmap::change(
            captions,
            c,
            service_sizes::io_size(services),
            offset,
            length,
        ),
    }
}
