ghost use Rattle.std.specs.Prelude.{◌≡◌, map, if◌then◌else◌};
ghost use Rattle.std.specs.Option.{option_map};
ghost use Rattle.element.specs.Kept.{slot_of};
ghost use Rattle.register.specs.Users.{number_of as user_number};
ghost use Rattle.flights.specs.Kept.{flight_of, flights_of};
ghost use Rattle.model.specs.Refusals.{number, number_of};
ghost use Rattle.packets.specs.StageOne.{fault_alone};
ghost use Rattle.packets.specs.StageTwo.{holder};
ghost use Rattle.substitutions.specs.Kept.{kept_message};
ghost use Rattle.checks.specs.Held.{setting, program};

use crate::alone::{
    controlled, ete_unfit, incomplete, no_slot_name, off_minute, off_slot, on_pop_up, uncontrolled,
    untimely,
};
use crate::holding::{find_named, owns, user_holder};
use element::{Element, Slot};
use flights::{Flight, Table};
use model::Refusal;
use register::{Register, User};
use substitutions::Message;

/// What the lines of a packet are checked against: whose flights are whose, the element, the table
/// as it was, and the user that sent the packet. Only contracts speak of the element.
// Kept: an `impl Model` would shorten the clauses, but its value would hold a setting, which is made of functions, and has no code.
#[derive(Drop)]
pub struct Checker<'a, R: Register, E: Element> {
    pub register: &'a R,
    pub element: &'a E,
    pub table: &'a Table,
    pub user: User,
}

/// Refuses where a fault is there.
fn refuse(fault: bool, refusal: Refusal) -> Result<(), Refusal>
    ensures { number_of result ≡ (if fault then number refusal else 0) }
{
    if fault { Err(refusal) } else { Ok(()) }
}

impl<'a, R: Register, E: Element> Checker<'a, R, E> {
    /// The first fault of a line in stage one.
    pub fn fault_alone(&self, message: &Option<Message>) -> Result<(), Refusal>
        ensures { number_of result ≡ fault_alone (setting R.Register E.Element self.now) (program R.Register E.Element self.now) (user_number self.now.user) (option_map kept_message message.now) }
    {
        let message = message.as_ref().ok_or(Refusal::NoMessage)?;
        refuse(untimely(message), Refusal::Untimely)?;
        refuse(incomplete(message), Refusal::Incomplete)?;
        refuse(no_slot_name(message), Refusal::NoSlotName)?;
        let flight = find_named(self.table.flights(), message.identity).ok_or(Refusal::NoFlight)?;
        refuse(!owns(self.register, self.user, flight), Refusal::NotOwned)?;
        refuse(uncontrolled(message, flight), Refusal::Uncontrolled)?;
        refuse(controlled(message, flight), Refusal::Controlled)?;
        refuse(flight.departed, Refusal::Departed)?;
        refuse(on_pop_up(message, flight), Refusal::OnPopUp)?;
        refuse(off_slot(message), Refusal::OffSlot)?;
        refuse(off_minute(message), Refusal::OffMinute)?;
        refuse(ete_unfit(message, flight), Refusal::EteUnfit)?;
        let held = message
            .creation()
            .is_some_and(|x| self.table.holds(&x.slot));
        refuse(held, Refusal::SlotHeld)
    }

    /// The one of some flights that is the user's and holds a slot.
    pub fn user_holder(&self, slot: &Slot, flights: &[Flight]) -> Option<Flight>
        ensures { option_map flight_of result ≡ holder (setting R.Register E.Element self.now) (user_number self.now.user) (slot_of slot.now) (map flight_of flights.now) }
    {
        user_holder(self.register, self.element, self.user, slot, flights)
    }
}
