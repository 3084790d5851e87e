// Requests: any word, any argument. The word is looked up, and its call goes to those about its topic.
#![tactic(auto)]

mod dispatch;

pub use dispatch::request;
