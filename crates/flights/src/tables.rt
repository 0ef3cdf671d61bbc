ghost use Rattle.std.specs.Prelude.{◌≡◌, ◌<◌, ◌≤◌, [], ◌∷◌, ◌++◌, map, length, IfOk, vec_len};
ghost use Rattle.std.specs.Fn.{FnReturnsAt};
ghost use Rattle.std.specs.List.{list_any};
ghost use Rattle.std.specs.Option.{option_map};
ghost use Rattle.calendar.specs.Identities.{identity_of, same_identity};
ghost use Rattle.element.specs.Kept.{slot_of};
ghost use Rattle.flights.specs.Counts.{some};
ghost use Rattle.flights.specs.Flights.{Flight as FlightMeant, bearers, holders, is_slot, departed_as};
ghost use Rattle.flights.specs.Standing.{joins, free_slot};
ghost use Rattle.flights.specs.Kept.{Changes, flight_of};

use crate::flight::Flight;
use crate::table::Table;
use calendar::Identity;
use element::{Element, Slot};
use std::alloc::{AllocError, Global};

/// Whether one of the flights has this identity.
// Kept: beside `any_holder`, each the name of one chain with its own question.
fn any_bearer(flights: &[Flight], identity: &Identity) -> bool
    ensures { result ≡ list_any (λ f. same_identity (identity_of f.identity) (identity_of identity.now)) flights.now }
{
    flights.iter().any(|flight| flight.identity == *identity)
}

/// Whether one of the flights holds this slot.
fn any_holder(flights: &[Flight], slot: &Slot) -> bool
    ensures { result ≡ list_any (λ f. is_slot (flight_of f).slot (slot_of slot.now)) flights.now }
{
    flights.iter().any(|flight| flight.slot == Some(*slot))
}

impl Table {
    /// An empty table, with room for 512 flights.
    pub fn new(heap: Global) -> Result<Table, AllocError>
        ensures { IfOk result (λ t. t ≡ []) }
    {
        let flights = Vec::with_capacity(heap, 512)?;
        Ok(Table { flights })
    }

    pub fn len(&self) -> usize
        ensures count { result ≡ length self.now }
        ensures most { result ≤ 512 }
    {
        self.flights.len()
    }

    /// The flights, in the table's order.
    pub fn flights(&self) -> &[Flight]
        ensures value { map flight_of result.now ≡ self.now }
        ensures most { length result.now ≤ 512 }
    {
        self.flights.as_slice()
    }

    /// Whether a flight has this identity.
    pub fn has(&self, identity: &Identity) -> bool
        ensures { result ≡ some (bearers (identity_of identity.now) self.now) }
    {
        any_bearer(&self.flights, identity)
    }

    /// Whether a flight holds this slot.
    pub fn holds(&self, slot: &Slot) -> bool
        ensures { result ≡ some (holders (slot_of slot.now) self.now) }
    {
        any_holder(&self.flights, slot)
    }

    /// Whether no flight holds the slot, where there is one.
    fn leaves_free(&self, slot: &Option<Slot>) -> bool
        ensures { result ≡ free_slot self.now (option_map slot_of slot.now) }
    {
        slot.is_none_or(|slot| !self.holds(&slot))
    }

    /// Whether a flight keeps the rules beside those of the table.
    pub fn admits<E: Element>(&self, element: &E, flight: &Flight) -> bool
        ensures { result ≡ joins (E.Element.means element.now) self.now (flight_of flight.now) }
    {
        flight.stands(element)
            && !self.has(&flight.identity)
            && self.leaves_free(&flight.slot)
            && self.len() <= 511
    }

    /// One flight more, after the others.
    pub fn add(&mut self, flight: Flight)
        requires { length self.old < 512 }
        ensures { self.new ≡ self.old ++ flight_of flight ∷ [] }
    {
        self.flights.push_reserved(flight);
    }

    pub fn clear(&mut self)
        ensures { self.new ≡ [] }
    {
        self.flights.clear();
    }

    /// Changes each flight as a closure says.
    pub fn amend<F: Fn(&Flight) -> Flight>(&mut self, change: F)
        requires { F.IsAlwaysCallable change }
        ensures { (h : FlightMeant → FlightMeant) → Changes (FnReturnsAt F.Fn change) h → self.new ≡ map h self.old }
    {
        for flight in self.flights.iter_mut() {
            *flight = change(flight);
        }
    }

    /// Marks the flight with this identity as departed.
    pub fn depart(&mut self, identity: &Identity)
        ensures { self.new ≡ map (departed_as (identity_of identity.now)) self.old }
    {
        self.amend(|flight| {
            if flight.identity == *identity {
                Flight {
                    departed: true,
                    ..*flight
                }
            } else {
                *flight
            }
        });
    }
}
