// The fields of a request word: taken apart, and built, by shifts and masks.
#![tactic(auto)]

ghost use Rattle.std.specs.Prelude.{◌≡◌};
ghost use Rattle.ioctl_word.specs.Word.{direction_of, size_of, letter_of, number_of, word_of};

pub fn direction(w: u32) -> u32
    ensures { result ≡ direction_of w }
{
    w >> 30
}

pub fn size(w: u32) -> u32
    ensures { result ≡ size_of w }
{
    (w >> 16) & 0x3fff
}

pub fn letter(w: u32) -> u32
    ensures { result ≡ letter_of w }
{
    (w >> 8) & 0xff
}

pub fn number(w: u32) -> u32
    ensures { result ≡ number_of w }
{
    w & 0xff
}

// The word of four parts. Bits of a part that its field has no room for are left out.
pub fn build(direction: u32, size: u32, letter: u32, number: u32) -> u32
    ensures { result ≡ word_of direction size letter number }
{
    (direction & 3) << 30 | (size & 0x3fff) << 16 | (letter & 0xff) << 8 | (number & 0xff)
}

// Taken apart and built again, every word is itself: no bit is outside the four fields, and none is in two.
pub fn rebuilt(w: u32) -> u32
    ensures { result ≡ w }
{
    let d = direction(w);
    let s = size(w);
    let l = letter(w);
    let n = number(w);
    build(d, s, l, n)
}
