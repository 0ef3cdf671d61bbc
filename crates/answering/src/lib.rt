//! The replies to a packet and to a request, written into a lent buffer.

#![tactic(auto)]

// Kept: a buffer in and a length out, since that length is the second number of the pair that a call of Processor answers.
// Kept: the room of 40,960 bytes as a clause: a type of its own round the lent buffer would have to say in each clause that it is the caller's.

mod accepting;
mod rejecting;
mod reporting;

pub use accepting::put_acceptance;
pub use rejecting::{put_first_fault, put_line_faults};
pub use reporting::{is_reported, put_refused_request, put_report};
