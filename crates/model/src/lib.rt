//! What the definitions of all calls share.

#![tactic(auto)]

mod condition;
mod refusal;

pub use condition::Condition;
pub use refusal::Refusal;
