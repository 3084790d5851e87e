// 32 bits as a signed number, and back.
#![tactic(auto)]

ghost use Rattle.std.specs.Prelude.{◌≡◌};
ghost use Rattle.wire_signed.specs.Signed.{signed, bits, biased_of, signed_at};

// The signed number that a word's 32 bits stand for.
pub fn as_signed(w: u32) -> i32
    ensures { result ≡ signed w }
{
    w.cast_signed()
}

// The 32 bits of a signed number.
pub fn as_bits(z: i32) -> u32
    ensures { result ≡ bits z }
{
    z.cast_unsigned()
}

// The signed number of a word counted from -2^31 up, so that the order of signed numbers is that of unsigned ones.
pub fn biased(w: u32) -> u32
    ensures { result ≡ biased_of (signed w) }
{
    w.wrapping_add(0x8000_0000)
}

// The word at a place as a signed number.
pub fn signed_at(s: &[u8], at: usize) -> i32
    ensures { result ≡ signed_at s.now at }
{
    as_signed(wire_read::word_at(s, at))
}
