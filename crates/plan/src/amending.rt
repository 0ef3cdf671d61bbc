ghost use Rattle.std.specs.Prelude.{◌≡◌, map};
ghost use Rattle.std.specs.Option.{option_map};
ghost use Rattle.calendar.specs.Days.{minute_of};
ghost use Rattle.calendar.specs.Identities.{identity_of};
ghost use Rattle.element.specs.Meanings.{or_else};
ghost use Rattle.flights.specs.Kept.{flight_of};
ghost use Rattle.packets.specs.Messages.{seat_of};
ghost use Rattle.packets.specs.Amended.{first_for, cancel_of, erta_of, amended_by, amended};
ghost use Rattle.packets.specs.Verdict.{messages_of};
ghost use Rattle.substitutions.specs.Kept.{kept_message, kept_seat};
ghost use Rattle.plan.specs.Rows.{row_of, rows_of, messages_in, given_for};

use crate::row::{Plan, Row};
use calendar::{Identity, Minute};
use flights::{ControlType, Flight};
use messages::MessageType;
use substitutions::{Message, Seat};

/// An FX cancels, and sets the hold mark as given.
fn cancel(message: &Message) -> Option<bool>
    ensures { result ≡ cancel_of (kept_message message.now) }
{
    (message.kind == MessageType::Fx).then_some(message.hold)
}

/// What the packet asks of a flight: a seat, a cancellation, an ERTA.
#[derive(Clone, Copy, Default)]
struct Change {
    seat: Option<Seat>,
    cancel: Option<bool>,
    erta: Option<Minute>,
}

impl Change {
    /// With what a row asks of the flight besides, where nothing of its kind is asked yet.
    fn or(self, identity: &Identity, row: &Row) -> Change
        ensures seat { option_map kept_seat result.seat ≡ or_else (option_map kept_seat self.seat) (given_for (identity_of identity.now) seat_of (row_of row.now).message) }
        ensures cancel { result.cancel ≡ or_else self.cancel (given_for (identity_of identity.now) cancel_of (row_of row.now).message) }
        ensures erta { option_map minute_of result.erta ≡ or_else (option_map minute_of self.erta) (given_for (identity_of identity.now) erta_of (row_of row.now).message) }
    {
        match &row.message {
            Some(message) if message.names(identity) => Change {
                seat: self.seat.or(message.seat()),
                cancel: self.cancel.or(cancel(message)),
                erta: self.erta.or(message.erta.ok().flatten()),
            },
            _ => self,
        }
    }

    /// What it makes of the flight.
    fn of(self, flight: &Flight) -> Flight
        ensures { flight_of result ≡ amended_by (option_map kept_seat self.seat) self.cancel (option_map minute_of self.erta) (flight_of flight.now) }
    {
        let flight = match self.seat {
            None => *flight,
            Some(seat) => Flight {
                slot: Some(seat.slot),
                ctd: seat.ctd,
                cta: seat.cta,
                control: Some(ControlType::Sub),
                ..*flight
            },
        };
        let flight = match self.cancel {
            None => flight,
            Some(hold) => Flight {
                cancelled: true,
                hold,
                ..flight
            },
        };
        Flight {
            erta: self.erta.or(flight.erta),
            ..flight
        }
    }
}

/// What the rows ask of a flight: of each kind the first.
fn asked(rows: &[Row], identity: &Identity) -> Change
    ensures seat { option_map kept_seat result.seat ≡ first_for (identity_of identity.now) seat_of (messages_of (messages_in (map row_of rows.now))) }
    ensures cancel { result.cancel ≡ first_for (identity_of identity.now) cancel_of (messages_of (messages_in (map row_of rows.now))) }
    ensures erta { option_map minute_of result.erta ≡ first_for (identity_of identity.now) erta_of (messages_of (messages_in (map row_of rows.now))) }
{
    let mut change = Change::default();
    for row in rows {
        change = change.or(identity, row);
    }
    change
}

impl Plan {
    /// The flight with what the packet asks of it.
    pub fn amended(&self, flight: &Flight) -> Flight
        ensures { flight_of result ≡ amended (messages_of (messages_in (rows_of self.now))) (flight_of flight.now) }
    {
        let change = asked(self.filled(), &flight.identity);
        change.of(flight)
    }
}
