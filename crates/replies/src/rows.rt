ghost use Rattle.std.specs.Prelude.{Bool, ◌+◌, ◌*◌, ◌≤◌, map, length};
ghost use Rattle.std.specs.Fn.{FnReturnsAt};
ghost use Rattle.calendar.specs.Days.{days_of};
ghost use Rattle.flights.specs.Flights.{Flight as FlightMeant};
ghost use Rattle.flights.specs.Kept.{Chooses, flight_of};
ghost use Rattle.writing.specs.Writers.{HasRoom, Puts};
ghost use Rattle.replies.specs.Rows.{row, rows};

use crate::fields::{mark, past_two, put_field, put_time, type_shown};
use crate::names::slot_shown;
use element::{Element, Naming};
use flights::Flight;
use writing::Writer;

/// The row of a flight.
fn put_row<E: Element>(reply: &mut Writer, naming: &Naming<E>, flight: &Flight)
    requires room { HasRoom reply.old 72 }
    ensures puts { Puts reply.old (row (E.Element.means naming.now.element.now) (days_of naming.now.days) (flight_of flight.now)) reply.new }
    ensures most { reply.new.written ≤ reply.old.written + 72 }
{
    let identity = &flight.identity;
    put_field(reply, identity.id());
    put_field(reply, slot_shown(naming, flight).as_bytes());
    put_field(reply, identity.departure());
    put_field(reply, identity.arrival());
    put_time(reply, naming, Some(flight.ctd));
    put_time(reply, naming, Some(flight.cta));
    put_field(reply, type_shown(flight.control));
    put_field(reply, mark(flight.exempt));
    put_field(reply, mark(flight.cancelled));
    put_field(reply, mark(flight.hold));
    put_time(reply, naming, flight.erta);
    reply.put(past_two(identity.date()));
    reply.put_byte(b'\n');
}

/// A row for each flight that is chosen, in the order of the flights.
pub fn put_rows<E: Element, C: Fn(&Flight) -> bool>(
    reply: &mut Writer,
    naming: &Naming<E>,
    flights: &[Flight],
    choice: C,
)
    requires room { HasRoom reply.old (72 * length flights.now) }
    requires callable { C.IsAlwaysCallable choice }
    ensures puts { (t : FlightMeant → Bool) → Chooses (FnReturnsAt C.Fn choice) t → Puts reply.old (rows (E.Element.means naming.now.element.now) (days_of naming.now.days) t (map flight_of flights.now)) reply.new }
    ensures most { reply.new.written ≤ reply.old.written + 72 * length flights.now }
{
    for flight in flights {
        if choice(flight) {
            put_row(reply, naming, flight);
        }
    }
}
