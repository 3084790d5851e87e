// The bytes that answer with services.
#![tactic(auto)]

mod told;

pub use told::{put_services, put_services_capability};
