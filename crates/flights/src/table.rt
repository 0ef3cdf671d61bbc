use crate::flight::Flight;
use std::marker::Model;

/// A table of up to 512 flights. Its room is reserved when it is made, so nothing allocates later.
#[derive(Drop)]
pub struct Table {
    pub(crate) flights: Vec<Flight>,
}

impl Model for Table {
    ghost use Rattle.std.specs.Prelude.{◌≤◌, List, map, vec_items, vec_len, vec_capacity};
    ghost use Rattle.flights.specs.Flights.{Flight as FlightMeant};
    ghost use Rattle.flights.specs.Held.{flight_of};

    ghost Value = { List FlightMeant };

    ghost view = { λ t. map flight_of (vec_items t.flights) };

    ghost invariant = { λ t. (512 ≤ vec_capacity t.flights) × (vec_len t.flights ≤ 512) };
}
