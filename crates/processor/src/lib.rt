//! The processor of one program for one controlled element.

#![tactic(auto)]

mod calls;
mod edges;
mod lines;
mod operator;
mod packet_call;
mod reports;
mod state;

pub use edges::worked_edge;
pub use state::Processor;
