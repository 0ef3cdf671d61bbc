//! The days of an element, times and dates, and what identifies a flight.

#![tactic(auto)]

mod dates;
mod days;
mod digits;
mod identities;
mod identity;
mod times;

pub use dates::is_date;
pub use days::{Days, Minute};
pub use identities::{is_airport, is_id};
pub use identity::{FlightTexts, Identity};
