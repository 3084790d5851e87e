// The format that requests choose, read and kept in the words of the setup. The crop is in `device_crop`.
#![tactic(auto)]

ghost use Rattle.std.specs.Prelude.{◌≡◌};
ghost use Rattle.device_state.specs.Setup.{setup_in};
ghost use Rattle.device_state.specs.Changes.{changed_format};

use device_state::{LINE, SIZE, SetupWords};
use format_rules::Format;

// The present format.
pub fn format_in(w: &SetupWords) -> Format
    ensures { result ≡ (setup_in w.now).format }
{
    Format {
        width: w[1],
        height: w[2],
        code: w[3],
    }
}

// Another format, with its line and image size.
pub fn keep_format(w: &mut SetupWords, f: Format, line: u32, size: u32)
    ensures { setup_in w.new ≡ changed_format (setup_in w.old) f line size }
{
    w[1] = f.width;
    w[2] = f.height;
    w[3] = f.code;
    w[LINE] = line;
    w[SIZE] = size;
}
