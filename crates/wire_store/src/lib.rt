// Words stored in a lent slice, as far as it reaches.
#![tactic(auto)]

ghost use Rattle.std.specs.Prelude.{◌≡◌, ◌+◌, ◌*◌, ◌≤◌, length};
ghost use Rattle.std.proofs.lemmas.List.Edits.{sets};
ghost use Rattle.wire_read.specs.Words.{le32, bytes_of};

// A word stored where all of it fits: with no test between its bytes, it compiles to one store of 32 bits.
fn store(dst: &mut [u8], at: usize, w: u32)
    requires { at + 4 ≤ length dst.old }
    ensures { dst.new ≡ sets dst.old at (le32 w) }
{
    dst[at..at + 4].copy_from_slice(&w.to_le_bytes());
}

// A word stored where it may reach past the end: as many of its bytes as fit.
fn store_cut(dst: &mut [u8], at: usize, w: u32)
    ensures { dst.new ≡ sets dst.old at (le32 w) }
{
    wire_copy::put_bytes(dst, at, &w.to_le_bytes());
}

// A word stored in dst at a place. Two paths, for speed: a word that fits is stored with no further test.
pub fn put_word(dst: &mut [u8], at: usize, w: u32)
    ensures { dst.new ≡ sets dst.old at (le32 w) }
{
    if dst.len() <= at {
        return;
    }
    if dst.len() - at < 4 {
        store_cut(dst, at, w);
        return;
    }
    store(dst, at, w);
}

// Words stored where all of them fit, with no test for the end of dst.
fn store_all(dst: &mut [u8], at: usize, ws: &[u32])
    requires { at + 4 * length ws.now ≤ length dst.old }
    ensures { dst.new ≡ sets dst.old at (bytes_of ws.now) }
{
    let mut k = at;
    for &w in ws {
        store(dst, k, w);
        k += 4;
    }
}

// Words stored where they may reach past the end: a test for each.
fn store_some(dst: &mut [u8], at: usize, ws: &[u32])
    ensures { dst.new ≡ sets dst.old at (bytes_of ws.now) }
{
    let mut k = at;
    for &w in ws {
        if dst.len() <= k {
            return;
        }
        put_word(dst, k, w);
        k += 4;
    }
}

// Words stored in dst, one after the other, from a place on. Two paths, for speed: whether all fit is known before the loop.
// The room is divided, since the product of the words' number and 4 could wrap.
pub fn put_words(dst: &mut [u8], at: usize, ws: &[u32])
    ensures { dst.new ≡ sets dst.old at (bytes_of ws.now) }
{
    if dst.len() <= at {
        return;
    }
    if (dst.len() - at) / 4 < ws.len() {
        store_some(dst, at, ws);
        return;
    }
    store_all(dst, at, ws);
}
