//! Issue lists: a heading, and a line for each flight.

#![tactic(auto)]

mod columns;
mod flight_lines;
mod reading;

pub use reading::read_list;
