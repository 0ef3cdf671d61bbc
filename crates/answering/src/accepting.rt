ghost use Rattle.std.specs.Prelude.{◌≡◌, ◌≤◌, map, length};
ghost use Rattle.calendar.specs.Days.{days_of};
ghost use Rattle.flights.specs.Kept.{flight_of};
ghost use Rattle.packets.specs.Verdict.{messages_of};
ghost use Rattle.plan.specs.Rows.{rows_of, messages_in};
ghost use Rattle.writing.specs.Overlay.{Wrote};
ghost use Rattle.answering.specs.Replies.{accepted_list};

use element::{Element, Naming};
use flights::Flight;
use plan::Plan;
use replies::{put_accepted, put_list_opening, put_rows};
use writing::Writer;

/// The reply to a packet that is accepted.
pub fn put_acceptance<E: Element>(
    out: &mut [u8],
    naming: &Naming<E>,
    id: &[u8],
    flights: &[Flight],
    plan: &Plan,
) -> usize
    requires short { length id.now ≤ 16 }
    requires few { length flights.now ≤ 512 }
    requires room { 40960 ≤ length out.old }
    ensures wrote { Wrote out.old 0 (accepted_list (E.means naming.now.element.now) (days_of naming.now.days) id.now (messages_of (messages_in (rows_of plan.now))) (map flight_of flights.now)) out.new result }
{
    let mut reply = Writer::new(out);
    put_accepted(&mut reply, id);
    put_list_opening(&mut reply, naming.element);
    put_rows(&mut reply, naming, flights, |flight| plan.names(flight));
    reply.written()
}
