//! Bytes, short texts, lines and fields.

#![tactic(auto)]

mod bytes;
mod lines;
mod short;
mod texts;

pub use bytes::{all_capitals, all_capitals_or_digits, all_digits};
pub use lines::{Fields, Line, Lines, count_fields, field_at, run_len};
pub use short::ShortText;
