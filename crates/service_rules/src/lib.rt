// The data services of the sliced lines: where the device offers them, and what it makes of those that a client asks for.
#![tactic(auto)]

mod lines;
mod sets;

pub use lines::{negotiate, offered_lines, union_of};

// For each line of each field a set of services: line l of field f stands at 24 f + l.
pub type Lines = [u16; 48];
