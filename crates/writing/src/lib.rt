//! Bytes and numbers, written into a lent buffer.

#![tactic(auto)]

mod writer;

pub use writer::Writer;
