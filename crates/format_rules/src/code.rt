// The nine four-character codes: bytes per pixel, colour space, and which have chroma of half the size each way.
// A code is a number and no enum: a client may ask for any number, and an answer has the code as it stands in the sheet, so that an enum would be made of
// a number and turned back at each use.
ghost use Rattle.std.specs.Prelude.{◌≡◌};
ghost use Rattle.format_rules.specs.Code.{bytes_per_pixel, colour_space, half_chroma};

pub const GREY: u32 = 0x59455247;

pub const YUYV: u32 = 0x56595559;

pub const UYVY: u32 = 0x59565955;

pub const RGBP: u32 = 0x50424752;

pub const RGB3: u32 = 0x33424752;

pub const BGR3: u32 = 0x33524742;

pub const YU12: u32 = 0x32315559;

pub const YV12: u32 = 0x32315659;

pub const NV12: u32 = 0x3231564E;

// Bytes of one pixel in the picture's first plane.
pub(crate) fn bytes_per_pixel(code: u32) -> u32
    ensures { result ≡ bytes_per_pixel code }
{
    match code {
        RGB3 | BGR3 => 3,
        YUYV | UYVY | RGBP => 2,
        _ => 1,
    }
}

// V4L2_COLORSPACE_SRGB for the RGB codes, V4L2_COLORSPACE_SMPTE170M for the others.
pub fn colour_space(code: u32) -> u32
    ensures { result ≡ colour_space code }
{
    match code {
        RGB3 | BGR3 | RGBP => 8,
        _ => 1,
    }
}

// Whether the code is one of the three with chroma of half the width and half the height.
pub(crate) fn half_chroma(code: u32) -> bool
    ensures { result ≡ half_chroma code }
{
    matches!(code, YU12 | YV12 | NV12)
}
