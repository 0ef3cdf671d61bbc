ghost use Rattle.std.specs.Prelude.{◌≡◌, ◌&&◌, map};
ghost use Rattle.std.specs.List.{find};
ghost use Rattle.std.specs.Option.{option_map, option_copied};
ghost use Rattle.calendar.specs.Identities.{identity_of, carrier_of, same_identity};
ghost use Rattle.element.specs.Kept.{slot_of};
ghost use Rattle.flights.specs.Flights.{is_slot};
ghost use Rattle.flights.specs.Kept.{flight_of};
ghost use Rattle.model.specs.Model.{setting_of};
ghost use Rattle.register.specs.Users.{number_of};
ghost use Rattle.packets.specs.StageOne.{find_named, is_user};
ghost use Rattle.packets.specs.StageTwo.{holder};

use calendar::Identity;
use element::{Element, Slot};
use flights::Flight;
use register::{Register, User};

/// The flight with an identity.
fn find_flight<'a>(flights: &'a [Flight], identity: &Identity) -> Option<&'a Flight>
    ensures { option_copied result ≡ find (λ f. same_identity (flight_of f).identity (identity_of identity.now)) flights.now }
{
    flights.iter().find(|f| f.identity == *identity)
}

/// The flight that a message names.
#[tactic(auto, using(crate::proofs::Found::found))]
pub(crate) fn find_named<'a>(
    flights: &'a [Flight],
    identity: Option<Identity>,
) -> Option<&'a Flight>
    ensures { option_map flight_of (option_copied result) ≡ find_named (option_map identity_of identity) (map flight_of flights.now) }
{
    let identity = identity?;
    find_flight(flights, &identity)
}

/// Whether a flight belongs to the user.
pub fn owns<R: Register>(register: &R, user: User, flight: &Flight) -> bool
    ensures { result ≡ is_user (R.carrier register.now (carrier_of (flight_of flight.now).identity)) (number_of user) }
{
    register.user_of_carrier(flight.identity.carrier()) == Some(user)
}

/// The first flight that belongs to the user and holds a slot.
fn find_holder<'a, R: Register>(
    flights: &'a [Flight],
    register: &R,
    user: User,
    slot: &Slot,
) -> Option<&'a Flight>
    ensures { option_copied result ≡ find (λ f. is_user (R.carrier register.now (carrier_of (flight_of f).identity)) (number_of user) && is_slot (flight_of f).slot (slot_of slot.now)) flights.now }
{
    flights
        .iter()
        .find(|f| owns(register, user, f) && f.slot == Some(*slot))
}

/// The flight of the user that holds a slot. Only the contract speaks of the element.
// Kept: beside the method of Checker, since a caller may have flights and no table.
#[tactic(auto, using(crate::proofs::Found::held_by))]
pub fn user_holder<R: Register, E: Element>(
    register: &R,
    element: &E,
    user: User,
    slot: &Slot,
    flights: &[Flight],
) -> Option<Flight>
    ensures { option_map flight_of result ≡ holder (setting_of (R.owner register.now) (R.carrier register.now) (E.means element.now)) (number_of user) (slot_of slot.now) (map flight_of flights.now) }
{
    find_holder(flights, register, user, slot).copied()
}
