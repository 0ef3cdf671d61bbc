ghost use Rattle.std.specs.Prelude.{◌≡◌, ◌≤◌, length};
ghost use Rattle.text.specs.Lines.{line_of, lines_left};
ghost use Rattle.processor.specs.Laws.{message_lines};
ghost use Rattle.processor.specs.Report.{first_line};

use text::{Line, Lines};

/// Takes the first line; without one it is empty.
pub(crate) fn first_line<'a>(rest: &mut Lines<'a>) -> Line<'a>
    ensures line { line_of result ≡ first_line (lines_left rest.old) }
    ensures rest { lines_left rest.new ≡ message_lines (lines_left rest.old) }
    ensures short { length result.text.now ≤ 160 }
{
    rest.next().unwrap_or(Line {
        text: b"",
        readable: true,
    })
}
