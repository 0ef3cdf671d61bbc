//! Histories of calls, the laws over them, and the call that runs one.

#![tactic(auto)]

mod running;
mod turn;

pub use running::run;
pub use turn::{Call, Turn};
