ghost use Rattle.std.specs.Prelude.{◌≡◌, List, [], Some, None, IfOk, IfErr};
ghost use Rattle.std.specs.Option.{option_map};
ghost use Rattle.text.specs.Lines.{line_of, lines, lines_left};
ghost use Rattle.calendar.specs.Days.{days_of};
ghost use Rattle.flights.specs.Kept.{flights_of};
ghost use Rattle.lists.specs.Lists.{heading_read, first_fault, listed, list_read};
ghost use Rattle.lists.specs.Kept.{Gave};

use crate::flight_lines::valid_flight;
use calendar::Days;
use element::{Element, Naming};
use flights::Table;
use text::{Fields, Line, Lines};

/// The days of a heading.
fn read_heading<E: Element>(element: &E, line: Line) -> Option<Days>
    ensures { option_map days_of result ≡ heading_read (E.Element.means element.now) (line_of line.entry) }
{
    if !line.readable {
        return None;
    }
    let mut fields = Fields::new(line.text);
    let word = fields.next()?;
    let name = fields.next()?;
    let base = fields.next()?;
    let month = fields.next()?;
    if fields.next().is_some() {
        return None;
    }
    if word == b"ISSUE".as_slice() && name == element.name() {
        Days::read(base, month)
    } else {
        None
    }
}

/// Fills an empty table from flight lines. At a faulty one, gives the number of the first, with the
/// table empty again.
// Kept: a number for an error, since it is the number of a line and stands for no kind.
fn fill<E: Element>(table: &mut Table, naming: &Naming<E>, lines: Lines) -> Result<(), usize>
    requires { flights_of table.old ≡ [] }
    ensures filled { IfOk result (λ _. (first_fault (E.Element.means naming.now.element.now) (days_of naming.now.days) 2 [] (lines_left lines.entry) ≡ None) × (flights_of table.new ≡ listed (E.Element.means naming.now.element.now) (days_of naming.now.days) (lines_left lines.entry))) }
    ensures fault { IfErr result (λ n. (first_fault (E.Element.means naming.now.element.now) (days_of naming.now.days) 2 [] (lines_left lines.entry) ≡ Some n) × (flights_of table.new ≡ [])) }
{
    for line in lines {
        let Some(flight) = valid_flight(table, naming, line) else {
            let number = table.len() + 2;
            table.clear();
            return Err(number);
        };
        table.add(flight);
    }
    Ok(())
}

/// Reads an issue list into the table: its days, or the number of its first faulty line, the
/// heading being line 1, with the table empty then.
// Kept: a number for an error, as in `fill`.
pub fn read_list<E: Element>(table: &mut Table, element: &E, input: &[u8]) -> Result<Days, usize>
    ensures { Gave (list_read (E.Element.means element.now) (lines input.now)) result (flights_of table.new) }
{
    table.clear();
    let mut lines = Lines::new(input);
    let heading = lines.next().ok_or(1usize)?;
    let days = read_heading(element, heading).ok_or(1usize)?;
    fill(table, &Naming { element, days }, lines)?;
    Ok(days)
}
