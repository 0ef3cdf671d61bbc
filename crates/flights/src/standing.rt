ghost use Rattle.std.specs.Prelude.{◌≡◌};
ghost use Rattle.std.specs.Option.{option_map};
ghost use Rattle.calendar.specs.Days.{minute_of};
ghost use Rattle.element.specs.Kept.{slot_of};
ghost use Rattle.flights.specs.Standing.{asks_slot, slot_fits_type, hold_fits, in_slot, is_slot_letter, flight_stands};
ghost use Rattle.flights.specs.Kept.{flight_of};

use crate::flight::{ControlType, Flight};
use calendar::Minute;
use element::{Element, Slot};

/// Whether a flight of this type holds a slot.
fn asks_slot(control: Option<ControlType>) -> bool
    ensures { result ≡ asks_slot control }
{
    control.is_some_and(|control| control != ControlType::Fa)
}

/// Whether a CTA lies 0 to 20 minutes after the slot, where there is one.
pub fn in_slot(slot: Option<Slot>, cta: Minute) -> bool
    ensures { result ≡ in_slot (option_map slot_of slot) (minute_of cta) }
{
    slot.is_none_or(|slot| {
        let minute = slot.minute().value();
        let landing = cta.value();
        minute <= landing && landing <= minute + 20
    })
}

/// Whether the letter is not Z, where there is a slot.
fn is_slot_letter(slot: Option<Slot>) -> bool
    ensures { result ≡ is_slot_letter (option_map slot_of slot) }
{
    slot.is_none_or(|slot| !slot.marks_pop_up())
}

impl Flight {
    /// Whether a slot stands exactly on a controlled flight that is no pop-up.
    fn slot_fits_type(&self) -> bool
        ensures { result ≡ slot_fits_type (flight_of self.now) }
    {
        self.slot.is_some() == asks_slot(self.control)
    }

    /// Whether a hold stands only on a cancelled flight with a slot.
    fn hold_fits(&self) -> bool
        ensures { result ≡ hold_fits (flight_of self.now) }
    {
        !self.hold || (self.cancelled && self.slot.is_some())
    }

    /// Whether the flight keeps the rules that hold of each flight by itself.
    pub fn stands<E: Element>(&self, element: &E) -> bool
        ensures { result ≡ flight_stands (E.Element.means element.now) (flight_of self.now) }
    {
        self.slot_fits_type()
            && self.hold_fits()
            && self.ctd < self.cta
            && in_slot(self.slot, self.cta)
            && is_slot_letter(self.slot)
            && element.serves(self.identity.arrival())
    }
}
