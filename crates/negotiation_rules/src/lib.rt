// What the device makes of a format that a client asks for.
#![tactic(auto)]

mod request;

pub use request::{asked, at_opening, negotiate};
