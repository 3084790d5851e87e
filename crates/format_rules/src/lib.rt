// Picture formats: what each code means, and how large a picture is.
#![tactic(auto)]

mod code;
mod layout;

pub use code::{BGR3, GREY, NV12, RGB3, RGBP, UYVY, YU12, YUYV, YV12, colour_space};
pub use layout::{bytes_per_line, image_height, image_size};

// What S_FMT sets and the device keeps; the other numbers of a picture format follow from it.
#[repr(C)]
#[derive(Clone, Copy)]
pub struct Format {
    pub width: u32,
    pub height: u32,
    pub code: u32,
}
