//! Packets: the header, and message lines with their tags.

#![tactic(auto)]

mod header;
mod kind;
mod message;
mod tags;

pub use header::{Identifier, read_header};
pub use kind::MessageType;
pub use message::{Written, read_message};
pub use tags::Tags;
