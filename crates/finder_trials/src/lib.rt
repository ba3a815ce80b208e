// Step, search, next and distances on trial: the tables are filled before the call and looked at after it, and what comes
// back is the answer and how many tables do not hold what they must.
#![tactic(auto)]

mod answer;
mod calls;
mod look;

pub use calls::{distances, next, search, step};
pub use look::wrong_answer;
