// A block written. Each record is looked at once, and its number kept at the bit of its line; then the lines are written by their bits.
#![tactic(auto)]

ghost use Rattle.std.specs.Prelude.{◌≡◌, true, false, cond, ◌+◌, ◌*◌, ◌/◌, ◌≤◌, ◌<◌, eqb, length, MatchOption};
ghost use Rattle.std.proofs.lemmas.List.Edits.{sets};
ghost use Rattle.ivtv_rules.specs.Block.{joined, opening_of};
ghost use Rattle.ivtv_writer.specs.Sorting.{SortedBy, kept_line, Room};
ghost use Rattle.ivtv_rules.specs.Writing.{good_lines, line_for, packable, packed};

// For each bit the number of the record that names its line, counted from 1, or 0, as `naming` of ivtv_rules has it. An Option would say once more what the
// mask says of each bit.
type Places = [u8; 36];

// The mask of the lines that records name, and where each record is.
#[derive(Clone, Copy)]
struct Sorted {
    mask: u64,
    places: Places,
}

// The first n records, sorted by their bits, if all of them are good.
fn sort(lines: &[u8], n: usize) -> Option<Sorted>
    requires { (n ≤ 36) × (64 * n ≤ length lines.now) }
    ensures { MatchOption result (good_lines lines.now n ≡ false) (λ s. (good_lines lines.now n ≡ true) × SortedBy lines.now n s.mask s.places) }
{
    let mut places: Places = [0; 36];
    let mut mask: u64 = 0;
    for i in 0..n {
        let at = 64 * i;
        let end = at + 64;
        let k = ivtv_lines::record_bit(&lines[at..end])?;
        if places[k] != 0 {
            return None;
        }
        places[k] = (i + 1) as u8;
        mask += 1u64 << k;
    }
    Some(Sorted { mask, places })
}

// The records sorted, if they can be packed into so many bytes. More than 36 are never good: some line would come twice.
fn plan(lines: &[u8], room: usize) -> Option<Sorted>
    ensures { MatchOption result (packable lines.now room ≡ false) (λ s. (packable lines.now room ≡ true) × SortedBy lines.now (length lines.now / 64) s.mask s.places) }
{
    let n = lines.len() / 64;
    if lines.len() % 64 != 0 {
        return None;
    }
    if 36 < n {
        return None;
    }
    if room != ivtv_rules::block_length(n) {
        return None;
    }
    sort(lines, n)
}

// What stands before n lines.
fn put_opening(block: &mut [u8], n: usize, mask: u64)
    ensures { block.new ≡ sets block.old 0 (opening_of n mask) }
{
    if n == 36 {
        wire_copy::put_part(block, 0, b"ITV0", 0, 4);
        return;
    }
    wire_copy::put_part(block, 0, b"itv0", 0, 4);
    wire_store::put_words(
        block,
        4,
        &[(mask % 4294967296) as u32, (mask / 4294967296) as u32],
    );
}

// How many bytes stand before n lines.
fn opening_length(n: usize) -> usize
    ensures { result ≡ cond (eqb n 36) 4 12 }
{
    if n == 36 { 4 } else { 12 }
}

// The line of a record, counted from 1, stored at a place, and the next place. The test is for speed: it never says yes, and tells the compiler that
// the line fits, so that storing it needs no further test.
fn put_named(block: &mut [u8], at: usize, lines: &[u8], p: u8) -> usize
    requires { (at + 43 ≤ length block.old) × (0 < p) × (64 * p ≤ length lines.now) }
    ensures { (block.new ≡ sets block.old at (line_for lines.now p)) × (result ≡ at + 43) }
{
    if block.len() < at + 43 {
        return at;
    }
    let to = 64 * (p as usize);
    let from = to - 64;
    ivtv_lines::put_line(block, at, &lines[from..to]);
    at + 43
}

// The lines of the bits that are set in a mask, from the lowest up, stored from a place on. What is left of the mask tells how many bits to pass over, and
// when to stop: a `for` over the 36 bits would look at those that are not set too.
fn put_lines(block: &mut [u8], start: usize, lines: &[u8], places: &Places, mask: u64)
    requires { Room block.old start lines.now places.now mask }
    ensures { block.new ≡ sets block.old start (joined (kept_line lines.now mask places.now) 36) }
{
    let mut at = start;
    let mut k: u32 = 0;
    let mut rest = mask;
    while rest != 0 {
        k += u64::trailing_zeros(rest);
        at = put_named(block, at, lines, places[k as usize]);
        k += 1;
        rest = mask >> k;
    }
}

// Records of 64 bytes, in any order, written as a block, if they are good and the block has their length; and whether they were.
pub fn write(lines: &[u8], block: &mut [u8]) -> bool
    ensures { (result ≡ packable lines.now (length block.old)) × (block.new ≡ packed lines.now block.old) }
{
    let Some(sorted) = plan(lines, block.len()) else {
        return false;
    };
    let places = sorted.places;
    let n = lines.len() / 64;
    put_opening(block, n, sorted.mask);
    put_lines(block, opening_length(n), lines, &places, sorted.mask);
    true
}
