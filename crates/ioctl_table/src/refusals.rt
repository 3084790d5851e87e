// The reasons for which the device says no, and the number that it gives back for each.
ghost use Rattle.std.specs.Prelude.{◌≡◌};
ghost use Rattle.ioctl_table.specs.Refusal.{errno_of, number_of};

#[derive(Clone, Copy)]
pub enum Refusal {
    ArgumentLength,
    MemoryLength,
    Closed,
    UnknownWord,
    WrongType,
    WrongMemory,
    NoSuchIndex,
    NoSuchControl,
    NotDequeued,
    NoBuffers,
    NotStreaming,
    ControlDisabled,
    ControlReadOnly,
    ControlIsButton,
    BadSheet,
    MemoryTooLong,
    NoSuchPlane,
    NoSuchBuffer,
    NotMapped,
    BuffersExist,
    StillMapped,
    Streaming,
    ControlGrabbed,
    OutOfRange,
    NothingOutgoing,
    RunFull,
    MapsFull,
    BadLines,
    BadBlock,
}

impl From<Refusal> for u32 {
    ghost from_gives = { λ why n. n ≡ errno_of why };

    // The number of a refusal.
    fn from(why: Refusal) -> u32 {
        match why {
            Refusal::ArgumentLength => 14,
            Refusal::MemoryLength => 14,
            Refusal::Closed => 22,
            Refusal::UnknownWord => 25,
            Refusal::WrongType => 22,
            Refusal::WrongMemory => 22,
            Refusal::NoSuchIndex => 22,
            Refusal::NoSuchControl => 22,
            Refusal::NotDequeued => 22,
            Refusal::NoBuffers => 22,
            Refusal::NotStreaming => 22,
            Refusal::ControlDisabled => 22,
            Refusal::ControlReadOnly => 22,
            Refusal::ControlIsButton => 22,
            Refusal::BadSheet => 22,
            Refusal::MemoryTooLong => 22,
            Refusal::NoSuchPlane => 22,
            Refusal::NoSuchBuffer => 22,
            Refusal::NotMapped => 22,
            Refusal::BuffersExist => 16,
            Refusal::StillMapped => 16,
            Refusal::Streaming => 16,
            Refusal::ControlGrabbed => 16,
            Refusal::OutOfRange => 34,
            Refusal::NothingOutgoing => 11,
            Refusal::RunFull => 75,
            Refusal::MapsFull => 75,
            Refusal::BadLines => 22,
            Refusal::BadBlock => 22,
        }
    }
}

// The number that a call gives back: 0 where it is done, or that of the refusal.
pub fn number(answer: Result<(), Refusal>) -> u32
    ensures { result ≡ number_of answer }
{
    match answer {
        Ok(()) => 0,
        Err(why) => u32::from(why),
    }
}
