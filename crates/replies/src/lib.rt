//! The texts of a slot list and of a rejection.

#![tactic(auto)]

mod fields;
mod names;
mod openings;
mod rejections;
mod rows;

pub use names::read_again;
pub use openings::{put_accepted, put_list_opening};
pub use rejections::{put_fault, put_rejected};
pub use rows::put_rows;
