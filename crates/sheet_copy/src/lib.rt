// The device's own copy of its sheet.
#![tactic(auto)]

ghost use Rattle.std.specs.Prelude.{◌≡◌};
ghost use Rattle.sheet_copy.specs.Copy.{kept_of};

// The longest good sheet has 2,684 bytes; the copy has room for one geometry word more.
pub type Sheet = [u8; 2688];

// The sheet's bytes, then zeros; bytes past 2,688 are left out, and no good sheet has that many.
pub fn kept(s: &[u8]) -> Sheet
    ensures { result ≡ kept_of s.now }
{
    let mut b = [0u8; 2688];
    wire_copy::put_bytes(&mut b, 0, s);
    b
}
