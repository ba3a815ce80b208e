// The reasons to refuse a call with their numbers, and the limits, each named once.
#![tactic(auto)]

pub mod limit;
mod reason;

pub use reason::Reason;
