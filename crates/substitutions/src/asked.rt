ghost use Rattle.std.specs.Prelude.{◌≡◌, None, if◌then◌else◌};
ghost use Rattle.std.specs.Option.{option_map};
ghost use Rattle.calendar.specs.Identities.{identity_of};
ghost use Rattle.packets.specs.Messages.{seat_of, move_of, create_of, names};
ghost use Rattle.packets.specs.StageTwo.{same_type};
ghost use Rattle.substitutions.specs.Kept.{kept_message, kept_seat};

use crate::message::{Message, Seat};
use calendar::Identity;
use messages::MessageType;

impl Message {
    /// The seat that the message asks for.
    pub fn seat(&self) -> Option<Seat>
        ensures { option_map kept_seat result ≡ seat_of (kept_message self.now) }
    {
        let ctd = self.ctd.ok().flatten()?;
        let cta = self.cta.ok().flatten()?;
        let slot = self.slot.ok().flatten()?;
        Some(Seat { ctd, cta, slot })
    }

    /// The seat, where the message is of this type.
    fn seat_by(&self, kind: MessageType) -> Option<Seat>
        ensures { option_map kept_seat result ≡ (if same_type self.now.kind kind then seat_of (kept_message self.now) else None) }
    {
        if self.kind == kind { self.seat() } else { None }
    }

    /// The seat of a move.
    // Kept: beside `creation`, each the name of one call of `seat_by`.
    pub fn move_to(&self) -> Option<Seat>
        ensures { option_map kept_seat result ≡ move_of (kept_message self.now) }
    {
        self.seat_by(MessageType::Fm)
    }

    /// The seat of an SC.
    pub fn creation(&self) -> Option<Seat>
        ensures { option_map kept_seat result ≡ create_of (kept_message self.now) }
    {
        self.seat_by(MessageType::Sc)
    }

    /// Whether the message names the flight with this identity.
    pub fn names(&self, identity: &Identity) -> bool
        ensures { result ≡ names (kept_message self.now) (identity_of identity.now) }
    {
        self.identity.is_some_and(|own| own == *identity)
    }
}
