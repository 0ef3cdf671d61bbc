//! The checks of a line alone, and what they ask of the table.

#![tactic(auto)]

mod alone;
mod checker;
mod holding;

pub use checker::Checker;
pub use holding::{owns, user_holder};
