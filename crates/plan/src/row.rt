ghost use Rattle.std.specs.Prelude.{◌≡◌, ◌≤◌, length};

use model::Refusal;
use substitutions::Message;
use text::ShortText;

/// A row of the plan: a copy of its line, the message that the line is, and the fault that a check
/// found in it.
#[derive(Clone, Copy)]
pub struct Row {
    pub(crate) text: ShortText<160>,
    // Kept: a flag beside the text, as a Line has it.
    pub(crate) readable: bool,
    pub(crate) message: Option<Message>,
    pub(crate) fault: Option<Refusal>,
}

/// The plan of a packet: a row for each of its message lines, at most 64.
// Kept: an array and a count, since the plan is a struct with an array of 64 rows, and nothing
// allocates after the start.
#[derive(Clone, Copy)]
pub struct Plan {
    pub(crate) rows: [Row; 64],
    pub(crate) count: usize,
    ghost few: { count ≤ 64 },
    ghost whole: { length rows ≡ 64 },
}

/// A row of a plan, among all rows and those before it.
#[derive(Clone, Copy)]
pub(crate) struct Among<'a> {
    pub(crate) row: &'a Row,
    pub(crate) before: &'a [Row],
    pub(crate) all: &'a [Row],
}
