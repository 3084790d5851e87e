// A block read. All of it is looked at before anything is written.
#![tactic(auto)]

ghost use Rattle.std.specs.Prelude.{◌≡◌, ◌+◌, ◌*◌, ◌-◌, ◌/◌, ◌≤◌, ◌<◌, true, false, length, MatchOption};
ghost use Rattle.std.proofs.lemmas.List.Edits.{sets};
ghost use Rattle.ivtv_rules.specs.Block.{joined};
ghost use Rattle.ivtv_rules.specs.Reading.{opens, mask_in, start_in, good_opening, count_in, good_body, readable, unpacked};
ghost use Rattle.ivtv_reader.specs.Stored.{record_in, Room};

// All 36 bits, and the first one behind them.
const ALL: u64 = BEYOND - 1;

const BEYOND: u64 = 1 << 36;

// Whether a block opens with four letters.
fn opens(block: &[u8], letters: &[u8]) -> bool
    requires { length letters.now ≡ 4 }
    ensures { result ≡ opens letters.now block.now }
{
    if block.len() < 4 {
        return false;
    }
    letters == &block[..4]
}

// Where the lines of a block start, and the mask that names them.
#[derive(Clone, Copy)]
struct Opening {
    start: usize,
    mask: u64,
}

// The opening of a block, if it is a good one.
#[tactic(auto, unfolding(ivtv_rules::specs::Reading::good_opening, ivtv_rules::specs::Reading::start_in, ivtv_rules::specs::Reading::mask_in))]
fn read_opening(block: &[u8]) -> Option<Opening>
    ensures { MatchOption result (good_opening block.now ≡ false) (λ o. (good_opening block.now ≡ true) × (o.start ≡ start_in block.now) × (o.mask ≡ mask_in block.now)) }
{
    if opens(block, b"ITV0") {
        return Some(Opening {
            start: 4,
            mask: ALL,
        });
    }
    let mask = (wire_read::word_at(block, 4) as u64)
        + 4294967296 * (wire_read::word_at(block, 8) as u64);
    if opens(block, b"itv0") & (mask < ALL) {
        return Some(Opening { start: 12, mask });
    }
    None
}

// How many lines a mask names.
fn count_in(mask: u64) -> usize
    ensures ones { result ≡ count_in mask 36 }
    ensures at_most_36 { result ≤ 36 }
{
    u64::count_ones(mask % BEYOND) as usize
}

// Whether the lines from a place on are good.
fn good_body(block: &[u8], start: usize) -> bool
    requires { start ≤ length block.now }
    ensures { result ≡ good_body block.now start ((length block.now - start) / 43) }
{
    for line in block[start..].chunks_exact(43) {
        if !ivtv_lines::good_line(line) {
            return false;
        }
    }
    true
}

// The opening of a block that can be read into so many bytes.
fn plan(block: &[u8], room: usize) -> Option<Opening>
    ensures { MatchOption result (readable block.now room ≡ false) (λ o. (readable block.now room ≡ true) × (o.start ≡ start_in block.now) × (o.mask ≡ mask_in block.now)) }
{
    let Opening { start, mask } = read_opening(block)?;
    let n = count_in(mask);
    if block.len() != start + 43 * n {
        return None;
    }
    if room != 64 * n {
        return None;
    }
    if !good_body(block, start) {
        return None;
    }
    Some(Opening { start, mask })
}

// The lines of the bits that are set in a mask, from the lowest up, stored as records. What is left of the mask tells how many bits to pass over, and when
// to stop: a `for` over the 36 bits would look at those that are not set too. The test in the loop is for speed: it never says yes, and tells the compiler
// that the record fits, so that storing it needs no further test.
fn put_by_mask(lines: &mut [u8], block: &[u8], start: usize, mask: u64)
    requires { Room lines.old block.now start mask }
    ensures { lines.new ≡ sets lines.old 0 (joined (record_in block.now start mask) 36) }
{
    let mut j: usize = 0;
    let mut k: u32 = 0;
    let mut rest = mask;
    while rest != 0 {
        k += u64::trailing_zeros(rest);
        let to = 64 * j;
        if lines.len() < to + 64 {
            return;
        }
        let at = start + 43 * j;
        let end = at + 43;
        ivtv_lines::put_record(lines, to, k, &block[at..end]);
        k += 1;
        rest = mask >> k;
        j += 1;
    }
}

// A block read into records of 64 bytes, if it is good and they have its length; and whether they were.
pub fn read(block: &[u8], lines: &mut [u8]) -> bool
    ensures { (result ≡ readable block.now (length lines.old)) × (lines.new ≡ unpacked block.now lines.old) }
{
    let Some(Opening { start, mask }) = plan(block, lines.len()) else {
        return false;
    };
    put_by_mask(lines, block, start, mask);
    true
}
