// Calls by their letters, which are those of the lists: an enum of calls would be a second list of them before the matches here. Request words and
// codes of formats are written out once more here: a client asks by number.
use show_lists::Event;

// The first words of an argument; the others are 0.
type Words = [u32; 15];

pub fn word(c: u8) -> u32 {
    match c {
        b'c' => 0x80685600,
        b'e' => 0xC0405602,
        b'f' | b'P' | b'N' | b'F' => 0xC0CC5605,
        b't' | b'T' | b'E' => 0xC0CC5640,
        b'r' => 0xC0145608,
        b'b' => 0xC0445609,
        b'q' => 0xC044560F,
        b'd' => 0xC0445611,
        b's' => 0x40045612,
        b'o' => 0x40045613,
        b'u' => 0xC0CC5606,
        b'G' => 0xC008561B,
        b'S' => 0xC008561C,
        b'Q' => 0xC0445624,
        b'C' => 0xC02C563A,
        b'k' => 0xC014563B,
        b'K' | b'J' => 0x4014563C,
        b'V' => 0xC0745645,
        _ => 0xC0CC5604,
    }
}

// How many bytes a client lends: as many as the word says, but for one call that is wrong.
fn length(c: u8) -> usize {
    if c == b'l' {
        203
    } else {
        ioctl_word::size(word(c)) as usize
    }
}

// The bytes of an argument that a client lends.
pub fn lent(a: &mut [u8], c: u8) -> &mut [u8] {
    let n = length(c).min(a.len());
    &mut a[..n]
}

fn words(a: u32, b: u32, c: u32, d: u32, e: u32, f: u32) -> Words {
    [a, b, c, d, e, f, 0, 0, 0, 0, 0, 0, 0, 0, 0]
}

// A buffer of the one kind of memory, by its index and type, with an offset and a length.
fn buffer(index: u32, kind: u32, offset: u32, length: u32) -> Words {
    [index, kind, 0, 0, 0, 0, 0, 0, 0, 0, 0, 0, 1, offset, length]
}

// The type of the stream that is asked, where the first of two numbers names it: pictures where there is none.
fn kind(x: u32) -> u32 {
    if x == 0 { 1 } else { x }
}

// The word at 100, where G_SLICED_VBI_CAP has its type and other calls have nothing.
pub(crate) fn last(c: u8) -> u32 {
    if c == b'V' { 6 } else { 0 }
}

// What a client asks with, by two numbers. An opening has the length of the picture memory, that of the sheet, the sheet's least width, which
// is even in a good one, the length of the caption memory, and 1 for the sheet with odd tops. An arrival has its length, its time and its
// type, and one of captions the load and the service. The 7 is the bytes per line that a client would like, which nobody looks at.
pub(crate) fn argument(e: Event) -> Words {
    let (x, n) = (e.first, e.number);
    match e.letter {
        b'B' => words(n, 324, 160, 0, 0, 0),
        b'D' => words(n, 324, 161, 0, 0, 0),
        b'U' => words(n, 323, 160, 0, 0, 0),
        b'O' => words(x, 324, 160, n, 0, 0),
        b'I' => words(n, 324, 160, 0, 1, 0),
        b'w' => words(143360, x, n, 1, 0, 0),
        b'h' => words(143359, x, n, 1, 0, 0),
        b'z' => words(143360, x, n, 2, 0, 0),
        b'a' => words(64, n, 0, 6, x, 0x1000),
        b'A' => words(128, n, 0, 6, x, 0x1000),
        b'i' => words(64, n, 0, 6, x, 0x0001),
        b'F' | b'E' => words(6, n, 0, 0, 0, 0),
        b'f' | b't' => words(1, x, n, 0x56595559, 0, 7),
        b'P' | b'T' => words(1, x, n, 0x32315559, 0, 7),
        b'N' => words(1, x, n, 0x3231564E, 0, 7),
        b'b' | b'q' | b'd' | b'm' | b'n' => buffer(n, kind(x), 0, 0),
        b'M' | b'W' => buffer(0, 1, x, n),
        b'e' => words(n, 1, 0, 0, 0, 0),
        b'r' => words(n, kind(x), 1, 0, 0, 0),
        b'S' => words(x, n, 0, 0, 0, 0),
        b'K' => words(1, x, 0, n, 400, 0),
        b'J' => words(1, 0xFFFFFFF8, x, 640, n, 0),
        b'y' => words(2, 0, 0, 0, 0, 0),
        b'G' | b'Q' | b'p' | b'#' => words(n, x, 0, 0, 0, 0),
        _ => words(kind(x), 0, 0, 0, 0, 0),
    }
}
