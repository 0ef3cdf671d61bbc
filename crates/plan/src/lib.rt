//! The plan of a packet: a row for each message line, and the checks in two stages.

#![tactic(auto)]

mod amending;
mod filling;
mod plans;
mod row;
mod together;

pub use row::{Plan, Row};
