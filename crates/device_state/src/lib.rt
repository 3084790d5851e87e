// What a device keeps. The sheet's copy never changes and is lent to the functions that read it; what requests choose, the values of the
// controls and the numbers of the streams stand in arrays that are lent and changed in place. All of it is numbers, so that a caller in C
// can hold it, and every value of it is answered.
#![tactic(auto)]

ghost use Rattle.std.specs.Prelude.{◌≡◌};
ghost use Rattle.device_state.specs.Kinds.{kind_of};
ghost use Rattle.device_state.specs.Setup.{setup_in, closed_setup, opening_setup};

use control_value_rules::Values;
use ioctl_table::Refusal;
use service_rules::Lines;
use sheet_copy::Sheet;
use stream_words::Words;

// What is chosen by requests: whether the device is open (not 0), the format's width, height and code, its line and its image size, the bits
// of the crop's left, top, width and height.
pub type SetupWords = [u32; 10];

pub const READY: usize = 0;

pub const LINE: usize = 4;

pub const SIZE: usize = 5;

// The types of the streams: pictures, video capture; captions, sliced lines.
pub const PICTURES: u32 = 1;

pub const CAPTIONS: u32 = 6;

// What a stream carries, as its type names it.
#[derive(Clone, Copy)]
pub enum Kind {
    Pictures,
    Captions,
}

impl TryFrom<u32> for Kind {
    type Error = Refusal;

    ghost try_from_gives = { λ n r. r ≡ kind_of n };

    fn try_from(n: u32) -> Result<Kind, Refusal> {
        match n {
            PICTURES => Ok(Kind::Pictures),
            CAPTIONS => Ok(Kind::Captions),
            _ => Err(Refusal::WrongType),
        }
    }
}

// A device: the copy of its sheet, its setup, the values of its controls, its streams of pictures and of captions, and the services in force
// on each sliced line.
#[repr(C)]
#[derive(Clone, Copy)]
pub struct Device {
    pub sheet: Sheet,
    pub setup: SetupWords,
    pub values: Values,
    pub video: Words,
    pub captions: Words,
    pub services: Lines,
}

// A refused opening leaves a closed device: all numbers are 0.
pub fn closed() -> SetupWords
    ensures { setup_in result ≡ closed_setup }
{
    [0; 10]
}

// After a good opening: first format, greatest size, default crop with its top at an even distance.
pub fn opening(sheet: &[u8]) -> SetupWords
    ensures { setup_in result ≡ opening_setup sheet.now }
{
    let f = negotiation_rules::at_opening(sheet);
    let alignment = sheet_geometry::line_alignment(sheet);
    let line = format_rules::bytes_per_line(f, alignment);
    let size = format_rules::image_size(f, alignment);
    let c = crop_rules::opening_crop(sheet);
    [
        1,
        f.width,
        f.height,
        f.code,
        line,
        size,
        wire_signed::as_bits(c.left),
        wire_signed::as_bits(c.top),
        wire_signed::as_bits(c.width),
        wire_signed::as_bits(c.height),
    ]
}
