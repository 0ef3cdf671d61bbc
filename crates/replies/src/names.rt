ghost use Rattle.std.specs.Prelude.{◌≡◌};
ghost use Rattle.std.specs.Option.{option_map};
ghost use Rattle.text.specs.Short.{text_of};
ghost use Rattle.calendar.specs.Days.{days_of};
ghost use Rattle.element.specs.Kept.{slot_of};
ghost use Rattle.flights.specs.Kept.{flight_of};
ghost use Rattle.replies.specs.Names.{pair_shown, slot_shown, NamesReadAgain};

use element::{Element, Naming, Slot, SlotName};
use flights::{ControlType, Flight};
use text::ShortText;

/// The pair whose name is shown: the flight's slot, and of a pop-up its CTA with the letter Z.
fn pair_shown(flight: &Flight) -> Option<Slot>
    ensures { option_map slot_of result ≡ pair_shown (flight_of flight.now) }
{
    match (flight.slot, flight.control) {
        (None, Some(ControlType::Fa)) => Some(Slot::pop_up(flight.cta)),
        (slot, _) => slot,
    }
}

/// The name of that pair, and `-` where there is none.
pub(crate) fn slot_shown<E: Element>(naming: &Naming<E>, flight: &Flight) -> SlotName
    ensures { text_of result ≡ slot_shown (E.Element.means naming.now.element.now) (days_of naming.now.days) (flight_of flight.now) }
{
    match pair_shown(flight) {
        Some(pair) => naming.write_name(&pair),
        None => ShortText::joined(b"-", b""),
    }
}

/// The pair that is read of the name shown: it is the one whose name is shown.
pub fn read_again<E: Element>(naming: &Naming<E>, flight: &Flight) -> Option<Slot>
    ensures pair { option_map slot_of result ≡ pair_shown (flight_of flight.now) }
    ensures law { NamesReadAgain }
{
    let name = slot_shown(naming, flight);
    naming.read_name(name.as_bytes())
}
