//! Flights, the table of them, and the rules that it keeps.

#![tactic(auto)]

mod flight;
mod standing;
mod table;
mod tables;

pub use flight::{ControlType, Flight};
pub use standing::in_slot;
pub use table::Table;
