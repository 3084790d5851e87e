// A table of cases, one to a line: a name, a colon, changes to the bench sheet, how many bytes are looked at. The table says more.
use std::io;
use std::io::Write;

// Where a table is read: in the name of a case, or in its changes, with the number so far.
#[derive(Clone, Copy)]
enum Place {
    Name,
    Changes(u32),
}

// The space in which the sheet of a case is made, and the place of its next word.
#[derive(Drop)]
struct Sheet<'a> {
    space: &'a mut [u8],
    next: u32,
}

impl Sheet<'_> {
    // The bench sheet, with zeros behind it up to n.
    fn renew(&mut self, n: u32) {
        let zeros = [0u8; 2700];
        wire_copy::put_part(self.space, 0, &zeros, 0, n as usize);
        let s = bench_sheet::sheet();
        wire_copy::put_bytes(self.space, 0, &s);
    }

    // A word, put at its place.
    fn put(&mut self, word: u32) {
        wire_store::put_word(self.space, self.next as usize, word);
        self.next = self.next % 4096 + 4;
    }

    // What the check says of the first n bytes.
    fn verdict(&self, out: &mut impl Write, n: u32) -> io::Result<()> {
        if sheet_check::good_sheet(wire_read::part(self.space, 0, n as usize)) {
            writeln!(out, ": good")
        } else {
            writeln!(out, ": refused")
        }
    }

    // A sign does something with the number before it.
    fn sign(&mut self, out: &mut impl Write, number: u32, b: u8) -> io::Result<()> {
        match b {
            b'=' => self.next = number,
            b';' => self.put(number),
            b'?' => self.verdict(out, number)?,
            b'\n' => self.renew(number),
            _ => (),
        }
        Ok(())
    }
}

// The number after one more byte: a digit, a minus that makes it negative, a letter that is the highest byte of a word, or a sign
// that ends it. The length that was looked at stays known to the end of the line.
fn number_after(n: u32, b: u8) -> u32 {
    match b {
        b' ' | b'?' => n,
        b'=' | b';' => 0,
        b'-' => n.wrapping_neg(),
        0..=b'@' => n.wrapping_mul(10).wrapping_add(b.wrapping_sub(b'0') as u32),
        _ => n / 256 + 0x100_0000 * (b as u32),
    }
}

// The next byte of a table. A byte of a name is said as it stands.
fn after(out: &mut impl Write, sheet: &mut Sheet<'_>, place: Place, b: u8) -> io::Result<Place> {
    match (place, b) {
        (Place::Name, b':') => Ok(Place::Changes(0)),
        (Place::Name, _) => {
            out.write_all(&[b])?;
            Ok(Place::Name)
        }
        (Place::Changes(number), _) => {
            sheet.sign(out, number, b)?;
            Ok(if b == b'\n' {
                Place::Name
            } else {
                Place::Changes(number_after(number, b))
            })
        }
    }
}

// The lines of a table, one after the other. The first of them is no case: the sheet is renewed at its end.
pub(crate) fn table(out: &mut impl Write, space: &mut [u8], lines: &[u8]) -> io::Result<()> {
    let mut sheet = Sheet { space, next: 0 };
    let mut place = Place::Changes(0);
    for b in lines {
        place = after(out, &mut sheet, place, *b)?;
    }
    Ok(())
}
