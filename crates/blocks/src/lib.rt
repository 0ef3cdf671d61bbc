//! The blocks of an input, and what each of them says.

#![tactic(auto)]

mod block;
mod cursor;
mod reading;

pub use block::Block;
pub use cursor::Blocks;
