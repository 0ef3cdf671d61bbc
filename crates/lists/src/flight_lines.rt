ghost use Rattle.std.specs.Prelude.{◌≡◌};
ghost use Rattle.std.specs.Option.{option_map};
ghost use Rattle.text.specs.Lines.{line_of};
ghost use Rattle.calendar.specs.Days.{days_of};
ghost use Rattle.flights.specs.Kept.{flight_of, flights_of};
ghost use Rattle.lists.specs.FlightLines.{flight_from, flight_read};
ghost use Rattle.lists.specs.Lists.{where_valid};
ghost use Rattle.lists.specs.Kept.{columns_of};

use crate::columns::{Columns, read_columns, read_control, read_erta, read_mark, read_slot};
use calendar::{FlightTexts, Identity};
use element::{Element, Naming};
use flights::{Flight, Table};
use text::Line;

/// The flight of twelve columns.
fn flight_from<E: Element>(naming: &Naming<E>, columns: Columns) -> Option<Flight>
    ensures { option_map flight_of result ≡ flight_from (E.Element.means naming.now.element.now) (days_of naming.now.days) (columns_of columns.entry) }
{
    let identity = Identity::read(FlightTexts {
        id: columns.id,
        departure: columns.departure,
        arrival: columns.arrival,
        date: columns.date,
    })?;
    let slot = read_slot(naming, columns.slot)?;
    let ctd = naming.read_time(columns.ctd)?;
    let cta = naming.read_time(columns.cta)?;
    let control = read_control(columns.control)?;
    let exempt = read_mark(columns.exempt)?;
    let cancelled = read_mark(columns.cancelled)?;
    let hold = read_mark(columns.hold)?;
    let erta = read_erta(naming, columns.erta)?;
    Some(Flight {
        identity,
        slot,
        ctd,
        cta,
        control,
        exempt,
        cancelled,
        hold,
        erta,
        departed: false,
    })
}

/// The flight that a line lists.
fn read_flight<E: Element>(naming: &Naming<E>, line: Line) -> Option<Flight>
    ensures { option_map flight_of result ≡ flight_read (E.Element.means naming.now.element.now) (days_of naming.now.days) (line_of line.entry) }
{
    flight_from(naming, read_columns(line)?)
}

/// The flight that a line lists, where it keeps the rules beside those of the lines before it.
pub fn valid_flight<E: Element>(table: &Table, naming: &Naming<E>, line: Line) -> Option<Flight>
    ensures { option_map flight_of result ≡ where_valid (E.Element.means naming.now.element.now) (flights_of table.now) (flight_read (E.Element.means naming.now.element.now) (days_of naming.now.days) (line_of line.entry)) }
{
    let flight = read_flight(naming, line)?;
    if table.admits(naming.element, &flight) {
        Some(flight)
    } else {
        None
    }
}
