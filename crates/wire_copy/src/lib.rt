// Bytes copied between lent slices, as far as both reach.
#![tactic(auto)]

ghost use Rattle.std.specs.Prelude.{◌≡◌, ◌+◌, ◌≤◌, min, ◌<◌, length, take, drop};
ghost use Rattle.std.proofs.lemmas.List.Edits.{sets};

// n bytes of src from a place on, at most 65,536 of them, stored in dst from a place on, by way of a local array. That costs nothing: what is lent might overlap,
// as far as the compiler can see, and the local array cannot, so that it makes one move of the two copies, and drops the array.
fn copy_block(dst: &mut [u8], at: usize, src: &[u8], from: usize, n: usize)
    requires n_bound { n ≤ 65536 }
    requires n_in_bounds { at + n ≤ length dst.old }
    requires n_in_bounds_2 { from + n ≤ length src.now }
    ensures { dst.new ≡ sets dst.old at (take n (drop from src.now)) }
{
    let mut b = [0u8; 65536];
    b[..n].copy_from_slice(&src[from..from + n]);
    dst[at..at + n].copy_from_slice(&b[..n]);
}

// The bytes of src stored in dst from a place on, block by block. How many fit is known before the loop. Not by one copy_from_slice: that misses what the array
// is for, so that every caller gets a test for overlap and two loops beside the move (put_part of 32 bytes takes 138 instructions of program in place of 48).
// And by a while: a for over `(0..n).step_by(65536)` takes six instructions more in every caller.
pub fn put_bytes(dst: &mut [u8], at: usize, src: &[u8])
    ensures { dst.new ≡ sets dst.old at src.now }
{
    if dst.len() <= at {
        return;
    }
    let n = src.len().min(dst.len() - at);
    let mut k: usize = 0;
    while k < n {
        let m = (n - k).min(65536);
        copy_block(dst, at + k, src, k, m);
        k += m;
    }
}

// n bytes of src from a place on, or as many of them as there are, stored in dst from a place on. Two paths, for speed: where all of them are there and
// have room, a number that the caller gives as a constant is still one when they are copied, and a short copy then needs no call.
pub fn put_part(dst: &mut [u8], at: usize, src: &[u8], from: usize, n: usize)
    ensures { dst.new ≡ sets dst.old at (take n (drop from src.now)) }
{
    if wire_four::within(dst.len(), at, n) & wire_four::within(src.len(), from, n) & (n <= 65536) {
        copy_block(dst, at, src, from, n);
        return;
    }
    put_bytes(dst, at, wire_read::part(src, from, n));
}
