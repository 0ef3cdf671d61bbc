ghost use Rattle.std.specs.Prelude.{◌≡◌, not, ◌&&◌, ◌||◌, is_some};
ghost use Rattle.flights.specs.Kept.{flight_of};
ghost use Rattle.packets.specs.Given.{is_absent};
ghost use Rattle.packets.specs.Messages.{move_of, create_of};
ghost use Rattle.packets.specs.StageOne.{of_seat, untimely, incomplete, no_slot_name, wants_control, is_pop_up_type, off_slot, off_minute, ete_fits};
ghost use Rattle.substitutions.specs.Kept.{given_of, kept_message, kept_seat};

use flights::{ControlType, Flight, in_slot};
use messages::MessageType;
use substitutions::{Message, Seat, Tagged};

/// Whether a tag is there, with a valid value or not.
fn is_given<T>(tag: &Tagged<T>) -> bool
    ensures { result ≡ not (is_absent (given_of (λ x. x) tag.now)) }
{
    !matches!(tag, Ok(None))
}

fn wants_control(kind: MessageType) -> bool
    ensures { result ≡ wants_control kind }
{
    kind != MessageType::Sc
}

fn is_pop_up(control: Option<ControlType>) -> bool
    ensures { result ≡ is_pop_up_type control }
{
    control == Some(ControlType::Fa)
}

/// Whether the ETE of a seat fits the flight: it is positive, and twice its change is at most the
/// larger of 90 and the old ETE.
fn ete_fits(flight: &Flight, seat: &Seat) -> bool
    ensures { result ≡ ete_fits (flight_of flight.now) (kept_seat seat.now) }
{
    let (old_ctd, old_cta) = (flight.ctd.value(), flight.cta.value());
    let (ctd, cta) = (seat.ctd.value(), seat.cta.value());
    let change = (cta + old_ctd).abs_diff(old_cta + ctd);
    seat.ctd < seat.cta && (2 * change <= 90 || 2 * change + old_ctd <= old_cta)
}

/// 702: T5, T6, T8 or the date is not valid.
pub(crate) fn untimely(message: &Message) -> bool
    ensures { result ≡ untimely (kept_message message.now) }
{
    message.ctd.is_err()
        || message.cta.is_err()
        || message.erta.is_err()
        || message.identity.is_none()
}

/// 703: FM with one or two of T5, T6, A2, or no tag; SC lacking one.
pub(crate) fn incomplete(message: &Message) -> bool
    ensures { result ≡ incomplete (kept_message message.now) }
{
    let (ctd, cta, slot) = (
        is_given(&message.ctd),
        is_given(&message.cta),
        is_given(&message.slot),
    );
    let all = ctd && cta && slot;
    let none = !ctd && !cta && !slot;
    match message.kind {
        MessageType::Fx => false,
        MessageType::Fm => !all && (!none || !is_given(&message.erta)),
        MessageType::Sc => !all,
    }
}

/// 704: A2 is no slot name, or has the letter Z.
pub(crate) fn no_slot_name(message: &Message) -> bool
    ensures { result ≡ no_slot_name (kept_message message.now) }
{
    message.slot.is_err()
}

/// 707: FX or FM, and the flight is uncontrolled.
// Kept: beside `controlled`, two names for two rows of the table of refusals; one function of both would take
// as a flag which of them is asked.
pub(crate) fn uncontrolled(message: &Message, flight: &Flight) -> bool
    ensures { result ≡ (wants_control (kept_message message.now).kind && not (is_some (flight_of flight.now).control)) }
{
    wants_control(message.kind) && flight.control.is_none()
}

/// 708: SC, and the flight is controlled.
pub(crate) fn controlled(message: &Message, flight: &Flight) -> bool
    ensures { result ≡ (not (wants_control (kept_message message.now).kind) && is_some (flight_of flight.now).control) }
{
    !wants_control(message.kind) && flight.control.is_some()
}

/// 710: a move, or SH Y, on a pop-up.
pub(crate) fn on_pop_up(message: &Message, flight: &Flight) -> bool
    ensures { result ≡ ((is_some (move_of (kept_message message.now)) || (kept_message message.now).hold) && is_pop_up_type (flight_of flight.now).control) }
{
    (message.move_to().is_some() || message.hold) && is_pop_up(flight.control)
}

/// 501: a move whose CTA is not 0 to 20 minutes after the slot.
pub(crate) fn off_slot(message: &Message) -> bool
    ensures { result ≡ off_slot (kept_message message.now) }
{
    let seat = message.move_to();
    seat.is_some_and(|x| !in_slot(Some(x.slot), x.cta))
}

/// 711: an SC whose CTA is not the slot's minute.
pub(crate) fn off_minute(message: &Message) -> bool
    ensures { result ≡ off_minute (kept_message message.now) }
{
    let seat = message.creation();
    seat.is_some_and(|x| x.cta != x.slot.minute())
}

/// 712: a move or an SC whose CTA is not after its CTD, or whose ETE changes too much.
pub(crate) fn ete_unfit(message: &Message, flight: &Flight) -> bool
    ensures { result ≡ (of_seat (λ x. not (ete_fits (flight_of flight.now) x)) (move_of (kept_message message.now)) || of_seat (λ x. not (ete_fits (flight_of flight.now) x)) (create_of (kept_message message.now))) }
{
    let unfit = |x: Seat| !ete_fits(flight, &x);
    message.move_to().is_some_and(unfit) || message.creation().is_some_and(unfit)
}
