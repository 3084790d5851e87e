// When a frame of the caption lines is whole.
#![tactic(auto)]

ghost use Rattle.std.specs.Prelude.{◌≡◌, ◌&&◌, ◌/◌, ◌<◌, length, MatchOption};
ghost use Rattle.service_rules.specs.Services.{has};
ghost use Rattle.caption_rules.specs.Caption.{is_service, place_of, good_records, whole_caption};

use service_rules::Lines;
use stream_words::Time;

// Where the line of a record stands among the lines, if anywhere.
fn place(field: u32, line: u32) -> Option<usize>
    ensures { MatchOption result (place_of field line ≡ 48) (λ p. (p < 48) × (p ≡ place_of field line)) }
{
    if (field < 2) & (line < 24) {
        Some((24 * field + line) as usize)
    } else {
        None
    }
}

// Whether a number is the bit of a service, and the set has it. A match on the number itself: an enum of the services would bring a second match with the
// same four numbers, and each division by a number known here is a test of one bit.
#[tactic(auto, unfolding(wire_read::specs::Lists::any, service_rules::specs::Services::has))]
fn carries(set: u16, id: u32) -> bool
    ensures { result ≡ (is_service id && has set id) }
{
    match id {
        0x0001 => set % 2 == 1,
        0x0400 => set / 0x0400 % 2 == 1,
        0x1000 => set / 0x1000 % 2 == 1,
        0x4000 => set / 0x4000 % 2 == 1,
        _ => false,
    }
}

// Whether every record is negotiated and no line of a field comes twice. Each record is looked at once: the lines seen so far are marked. It is a slice of
// its own, for speed: the compiler knows how long that is, and no word needs a test.
fn good_records(lines: &Lines, frame: &[u8]) -> bool
    ensures { result ≡ good_records lines.now frame.now (length frame.now / 64) }
{
    let mut seen = [false; 48];
    for record in frame.chunks_exact(64) {
        let Some(p) = place(wire_read::word_at(record, 4), wire_read::word_at(record, 8)) else {
            return false;
        };
        if seen[p] | !carries(lines[p], wire_read::word_at(record, 0)) {
            return false;
        }
        seen[p] = true;
    }
    true
}

// Whether a frame is whole, by the lines that were negotiated.
#[tactic(auto, unfolding(crate::specs::Caption::whole_caption))]
pub fn whole_caption(lines: &Lines, frame: &[u8], time: Time) -> bool
    ensures { result ≡ whole_caption lines.now frame.now time }
{
    if !picture_rules::in_second(time) {
        return false;
    }
    if frame.len() % 64 != 0 {
        return false;
    }
    good_records(lines, frame)
}
