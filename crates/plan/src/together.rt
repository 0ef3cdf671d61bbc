ghost use Rattle.std.specs.Prelude.{◌≡◌, Bool, map};
ghost use Rattle.calendar.specs.Identities.{identity_of};
ghost use Rattle.element.specs.Kept.{slot_of};
ghost use Rattle.flights.specs.Counts.{some};
ghost use Rattle.flights.specs.Kept.{flight_of};
ghost use Rattle.register.specs.Users.{number_of as user_number};
ghost use Rattle.packets.specs.Messages.{Message as MessageMeant};
ghost use Rattle.packets.specs.StageTwo.{count, names_slot, moves, repeated};
ghost use Rattle.packets.specs.Verdict.{messages_of, is_named};
ghost use Rattle.model.specs.Refusals.{number_of};
ghost use Rattle.substitutions.specs.Kept.{kept_message};
ghost use Rattle.checks.specs.Held.{setting, program};
ghost use Rattle.plan.specs.Rows.{row_of, rows_of, messages_in, Tests, fault_beside};

use crate::row::{Among, Plan, Row};
use calendar::Identity;
use checks::Checker;
use element::{Element, Slot};
use flights::Flight;
use model::Refusal;
use register::Register;
use substitutions::Message;

/// Whether a message of the rows passes a test.
fn any_message<F: Fn(Message) -> bool>(rows: &[Row], test: F) -> bool
    requires { F.IsAlwaysCallable test }
    ensures { (t : MessageMeant → Bool) → Tests (F.post test) t → result ≡ some (count t (messages_of (messages_in (map row_of rows.now)))) }
{
    rows.iter().filter_map(|row| row.message).any(|m| test(m))
}

/// Whether a message of the rows is of this one's type and names its flight.
fn repeats(before: &[Row], message: &Message) -> bool
    ensures { result ≡ repeated (messages_of (messages_in (map row_of before.now))) (kept_message message.now) }
{
    any_message(
        before,
        |m| m.kind == message.kind && message.identity.is_some_and(|i| m.names(&i)),
    )
}

/// Whether a message of the rows names this slot.
// Kept: beside `moved`, `repeats` and `names`, each the name of one question to the rows' messages.
fn slot_named(rows: &[Row], slot: &Slot) -> bool
    ensures { result ≡ some (count (names_slot (slot_of slot.now)) (messages_of (messages_in (map row_of rows.now)))) }
{
    any_message(rows, |m| m.slot.ok().flatten() == Some(*slot))
}

/// Whether a message of the rows moves the flight with this identity.
fn moved(rows: &[Row], identity: &Identity) -> bool
    ensures { result ≡ some (count (moves (identity_of identity.now)) (messages_of (messages_in (map row_of rows.now)))) }
{
    any_message(rows, |m| m.move_to().is_some() && m.names(identity))
}

/// The first fault of a row in stage two, among the others; a line that is no message is one too.
pub(crate) fn fault_beside<R: Register, E: Element>(
    checker: &Checker<R, E>,
    among: Among,
) -> Result<(), Refusal>
    ensures { number_of result ≡ fault_beside (setting R.Register E.Element checker.now) (program R.Register E.Element checker.now) (user_number checker.now.user) (messages_in (map row_of among.entry.all.now)) (messages_in (map row_of among.entry.before.now)) (row_of among.entry.row.now).message }
{
    let message = among.row.message.as_ref().ok_or(Refusal::NoMessage)?;
    if repeats(among.before, message) {
        return Err(Refusal::Repeated);
    }
    let slot = message.slot.ok().flatten();
    let claimed = slot.is_some_and(|slot| slot_named(among.before, &slot));
    let Some(seat) = message.move_to() else {
        return if claimed {
            Err(Refusal::Claimed)
        } else {
            Ok(())
        };
    };
    let flights = checker.table.flights();
    let holder = checker
        .user_holder(&seat.slot, flights)
        .ok_or(Refusal::Unheld)?;
    if claimed {
        return Err(Refusal::Claimed);
    }
    if !moved(among.all, &holder.identity) {
        return Err(Refusal::Stranded);
    }
    Ok(())
}

impl Plan {
    /// Whether a message of the plan names the flight.
    pub fn names(&self, flight: &Flight) -> bool
        ensures { result ≡ is_named (messages_of (messages_in (rows_of self.now))) (flight_of flight.now) }
    {
        any_message(self.filled(), |m| m.names(&flight.identity))
    }
}
