// When a picture is whole.
#![tactic(auto)]

ghost use Rattle.std.specs.Prelude.{◌≡◌};
ghost use Rattle.picture_rules.specs.Picture.{in_second, whole_picture};

use stream_words::Time;

// Whether the microseconds of a time are in 0..999,999.
pub fn in_second(time: Time) -> bool
    ensures { result ≡ in_second time.microseconds }
{
    (0..=999_999).contains(&time.microseconds)
}

// Whether a frame of n bytes, taken at this time, is a whole picture of this image size.
pub fn whole_picture(n: u64, size: u32, time: Time) -> bool
    ensures { result ≡ whole_picture n size time }
{
    in_second(time) && n == size as u64
}
