// The crop that requests choose, read and kept in the words of the setup.
#![tactic(auto)]

ghost use Rattle.std.specs.Prelude.{◌≡◌};
ghost use Rattle.device_state.specs.Setup.{setup_in};
ghost use Rattle.device_state.specs.Changes.{changed_crop};

use device_state::SetupWords;
use sheet_geometry::Rect;

// The present crop.
pub fn crop_in(w: &SetupWords) -> Rect
    ensures { result ≡ (setup_in w.now).crop }
{
    Rect {
        left: wire_signed::as_signed(w[6]),
        top: wire_signed::as_signed(w[7]),
        width: wire_signed::as_signed(w[8]),
        height: wire_signed::as_signed(w[9]),
    }
}

// Another crop.
pub fn keep_crop(w: &mut SetupWords, r: Rect)
    ensures { setup_in w.new ≡ changed_crop (setup_in w.old) r }
{
    let left = wire_signed::as_bits(r.left);
    let top = wire_signed::as_bits(r.top);
    let width = wire_signed::as_bits(r.width);
    let height = wire_signed::as_bits(r.height);
    w[6] = left;
    w[7] = top;
    w[8] = width;
    w[9] = height;
}
