ghost use Rattle.std.specs.Prelude.{Bool, ◌≡◌, ◌<◌, ◌≤◌, ◌&&◌, map, length, is_some};
ghost use Rattle.std.specs.Fn.{FnReturnsAt};
ghost use Rattle.text.specs.Lines.{line_of};
ghost use Rattle.calendar.specs.Days.{days_of};
ghost use Rattle.calendar.specs.Identities.{carrier_of};
ghost use Rattle.flights.specs.Flights.{Flight as FlightMeant};
ghost use Rattle.flights.specs.Kept.{Chooses, flight_of};
ghost use Rattle.register.specs.Users.{number_of};
ghost use Rattle.packets.specs.StageOne.{is_user};
ghost use Rattle.writing.specs.Overlay.{Wrote};
ghost use Rattle.answering.specs.Replies.{refused_request, reported_list};

use checks::owns;
use element::{Element, Naming};
use flights::Flight;
use register::{Register, User};
use replies::{put_fault, put_list_opening, put_rows};
use text::Line;
use writing::Writer;

/// The reply to a request that is refused: its first line, and a number below 1,000.
// Kept: a number, as in put_fault.
pub fn put_refused_request(out: &mut [u8], first: Line, number: u32) -> usize
    requires short { length first.text.now ≤ 160 }
    requires small { number < 1000 }
    requires room { 40960 ≤ length out.old }
    ensures wrote { Wrote out.old 0 (refused_request (line_of first.entry) number) out.new result }
{
    let mut reply = Writer::new(out);
    reply.put(b"RQ REJECTED. 1 ERROR.\n\n");
    put_fault(&mut reply, first.text, number);
    reply.written()
}

/// The answer to a request: a row for each flight that is chosen.
pub fn put_report<E: Element, C: Fn(&Flight) -> bool>(
    out: &mut [u8],
    naming: &Naming<E>,
    flights: &[Flight],
    choice: C,
) -> usize
    requires few { length flights.now ≤ 512 }
    requires room { 40960 ≤ length out.old }
    requires callable { C.IsAlwaysCallable choice }
    ensures wrote { (t : FlightMeant → Bool) → Chooses (FnReturnsAt C.Fn choice) t → Wrote out.old 0 (reported_list (E.means naming.now.element.now) (days_of naming.now.days) t (map flight_of flights.now)) out.new result }
{
    let mut reply = Writer::new(out);
    put_list_opening(&mut reply, naming.element);
    put_rows(&mut reply, naming, flights, choice);
    reply.written()
}

/// Whether a flight is one of the user's controlled flights.
pub fn is_reported<R: Register>(register: &R, user: User, flight: &Flight) -> bool
    ensures { result ≡ (is_user (R.carrier register.now (carrier_of (flight_of flight.now).identity)) (number_of user) && is_some (flight_of flight.now).control) }
{
    owns(register, user, flight) && flight.control.is_some()
}
