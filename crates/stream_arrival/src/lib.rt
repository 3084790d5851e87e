// A frame arrives: what is answered, what becomes of the stream, what is written. Whether the frame is whole is the caller's rule (`picture_rules`
// for pictures), and comes in as a flag; a frame longer than the frame size is never taken as whole.
#![tactic(auto)]

mod decision;
mod store;

pub use decision::decide;
use ioctl_table::Refusal;
pub use store::arrive;

// What an arrival is answered. A stored one tells the buffer and the frame's number. A refusal is one of these, and no `Err`: so the claims
// `demand_1` to `demand_3` speak of what an arrival is answered (`Arrival` in claims/specs).
#[derive(Clone, Copy)]
pub enum Arrival {
    Refused(Refusal),
    Ignored,
    Damaged,
    Dropped,
    Stored(u32, u32),
}
