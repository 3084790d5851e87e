// The eighteen known request words, and the reasons and numbers of refusals.
#![tactic(auto)]

mod refusals;
mod table;

pub use refusals::{Refusal, number};
pub use table::{Call, Request, lookup};
