ghost use Rattle.std.specs.Prelude.{◌≡◌, ◌≤◌, length};
ghost use Rattle.text.specs.Lines.{line_of};
ghost use Rattle.calendar.specs.Days.{days_of};
ghost use Rattle.plan.specs.Rows.{row_of, row_read, number_of};

use crate::row::Row;
use element::{Element, Naming};
use substitutions::read_substitution;
use text::{Line, ShortText};

/// The row of a line.
pub(crate) fn row_of<E: Element>(naming: &Naming<E>, line: Line) -> Row
    requires { length line.text.now ≤ 160 }
    ensures row { row_of result ≡ row_read (E.means naming.now.element.now) (days_of naming.now.days) (line_of line.entry) }
    ensures number { number_of result ≡ 0 }
{
    Row {
        text: ShortText::joined(line.text, b""),
        readable: line.readable,
        message: read_substitution(naming, line),
        fault: None,
    }
}
