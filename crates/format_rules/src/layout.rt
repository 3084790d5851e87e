// How large a picture is: bytes per line, image size. Width and height count up to 8,192 and the alignment up to 64, as in
// every good sheet, so that no number here can pass 32 bits whatever is handed in.
ghost use Rattle.std.specs.Prelude.{◌≡◌};
ghost use Rattle.format_rules.specs.Size.{round_up, bytes_per_line, held_height, image_size};

use crate::{Format, code};

// x rounded up to a multiple of step; 0 where step is 0.
fn round_up(x: u32, step: u32) -> u64
    ensures { result ≡ round_up x step }
{
    if step == 0 {
        return 0;
    }
    (x as u64).next_multiple_of(step as u64)
}

// Bytes from one line of the first plane to the next.
pub fn bytes_per_line(f: Format, alignment: u32) -> u32
    ensures { result ≡ bytes_per_line f alignment }
{
    let used = f.width.min(8192) * code::bytes_per_pixel(f.code);
    round_up(used, alignment.min(64)) as u32
}

// The height, up to 8,192.
pub fn image_height(f: Format) -> u32
    ensures { result ≡ held_height f }
{
    f.height.min(8192)
}

// Bytes of a whole picture: half as much again for chroma of half the size each way.
pub fn image_size(f: Format, alignment: u32) -> u32
    ensures { result ≡ image_size f alignment }
{
    let n = bytes_per_line(f, alignment) * image_height(f);
    if code::half_chroma(f.code) {
        n + n / 2
    } else {
        n
    }
}
