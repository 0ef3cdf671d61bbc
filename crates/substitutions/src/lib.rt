//! What a message asks, by the element's names and days.

#![tactic(auto)]

mod asked;
mod message;
mod reading;

pub use message::{Invalid, Message, Seat, Tagged};
pub use reading::read_substitution;
