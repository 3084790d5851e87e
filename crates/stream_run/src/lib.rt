// One stream of buffers, whatever it carries: its runs, and the calls that grant buffers, begin a run and end it. Sizes come in as parameters.
#![tactic(auto)]

mod run;
mod switches;

pub use run::fresh;
pub use switches::{request_buffers, start, stop};
