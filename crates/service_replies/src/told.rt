// The bytes of the answers, stored over the argument from its start. Padding, reserved words and what is behind are zero.
ghost use Rattle.std.specs.Prelude.{◌≡◌, ◌+◌, ◌*◌, ◌≤◌, length};
ghost use Rattle.std.proofs.lemmas.List.Edits.{sets};
ghost use Rattle.service_replies.specs.Halves.{le16, halves_of};
ghost use Rattle.service_replies.specs.Services.{services_reply, services_capability_reply};

use service_rules::Lines;

// A number of 16 bits stored at a place.
#[tactic(auto, unfolding(crate::specs::Halves::le16))]
fn put_half(dst: &mut [u8], at: usize, h: u16)
    requires { at + 2 ≤ length dst.old }
    ensures { dst.new ≡ sets dst.old at (le16 h) }
{
    let [low, high] = h.to_le_bytes();
    dst[at] = low;
    dst[at + 1] = high;
}

// The sets of the lines stored from a place on.
fn put_lines(dst: &mut [u8], at: usize, lines: &[u16])
    requires { at + 2 * length lines.now ≤ length dst.old }
    ensures { dst.new ≡ sets dst.old at (halves_of lines.now) }
{
    for (k, line) in lines.iter().enumerate() {
        put_half(dst, at + 2 * k, *line);
    }
}

// G_FMT, S_FMT and TRY_FMT: the services of each line, their union, and the io size.
#[tactic(auto, unfolding(crate::specs::Services::services_reply))]
pub fn put_services(argument: &mut [u8], kind: u32, lines: &Lines)
    ensures { argument.new ≡ sets argument.old 0 (services_reply kind lines.now) }
{
    let mut b = [0u8; 204];
    wire_store::put_word(&mut b, 0, kind);
    put_half(&mut b, 4, service_rules::union_of(lines));
    put_lines(&mut b, 6, lines);
    wire_store::put_word(&mut b, 104, service_sizes::io_size(lines));
    wire_copy::put_bytes(argument, 0, &b);
}

// G_SLICED_VBI_CAP: all that the device offers.
#[tactic(auto, unfolding(crate::specs::Services::services_capability_reply))]
pub fn put_services_capability(argument: &mut [u8], kind: u32)
    ensures { argument.new ≡ sets argument.old 0 (services_capability_reply kind) }
{
    let lines = service_rules::offered_lines();
    let mut b = [0u8; 116];
    put_half(&mut b, 0, service_rules::union_of(&lines));
    put_lines(&mut b, 2, &lines);
    wire_store::put_word(&mut b, 100, kind);
    wire_copy::put_bytes(argument, 0, &b);
}
