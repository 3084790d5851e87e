// The eighteen known request words, the call that each stands for, and the length of that call's argument.
ghost use Rattle.std.specs.Prelude.{◌≡◌, ◌⊎◌};
ghost use Rattle.ioctl_table.specs.Table.{request_of};
ghost use Rattle.ioctl_word.specs.Word.{size_of};
ghost use Rattle.ioctl_table.specs.declared.table.Call.TheVariants.{Unknown};

#[derive(Clone, Copy)]
pub enum Call {
    Unknown,
    Querycap,
    EnumFmt,
    GFmt,
    SFmt,
    TryFmt,
    Reqbufs,
    Querybuf,
    Qbuf,
    Dqbuf,
    Streamon,
    Streamoff,
    GCtrl,
    SCtrl,
    Queryctrl,
    Cropcap,
    GCrop,
    SCrop,
    GSlicedVbiCap,
}

// What a word asks for: the call, and the length in bytes that its argument has to have.
#[derive(Clone, Copy)]
pub struct Request {
    pub call: Call,
    pub size: usize,
}

fn asks(call: Call, size: usize) -> Request
    ensures { result ≡ record { call = call; size = size } }
{
    Request { call, size }
}

// The table of words: each with its call and the length of its argument. A match, for speed: an array would be built anew on the stack in
// each call.
fn row(w: u32) -> Request
    ensures { result ≡ request_of w }
{
    match w {
        0x80685600 => asks(Call::Querycap, 104),
        0xC0405602 => asks(Call::EnumFmt, 64),
        0xC0CC5604 => asks(Call::GFmt, 204),
        0xC0CC5605 => asks(Call::SFmt, 204),
        0xC0CC5640 => asks(Call::TryFmt, 204),
        0xC0145608 => asks(Call::Reqbufs, 20),
        0xC0445609 => asks(Call::Querybuf, 68),
        0xC044560F => asks(Call::Qbuf, 68),
        0xC0445611 => asks(Call::Dqbuf, 68),
        0x40045612 => asks(Call::Streamon, 4),
        0x40045613 => asks(Call::Streamoff, 4),
        0xC008561B => asks(Call::GCtrl, 8),
        0xC008561C => asks(Call::SCtrl, 8),
        0xC0445624 => asks(Call::Queryctrl, 68),
        0xC02C563A => asks(Call::Cropcap, 44),
        0xC014563B => asks(Call::GCrop, 20),
        0x4014563C => asks(Call::SCrop, 20),
        0xC0745645 => asks(Call::GSlicedVbiCap, 116),
        _ => asks(Call::Unknown, 0),
    }
}

// What the word asks for: Unknown, with an argument of no bytes, where it is none of the eighteen. The length of a known word's argument
// is the one that the word itself names in its bits 29 to 16.
pub fn lookup(w: u32) -> Request
    ensures row { result ≡ request_of w }
    ensures sized { (result.call ≡ Unknown) ⊎ (result.size ≡ size_of w) }
{
    row(w)
}
