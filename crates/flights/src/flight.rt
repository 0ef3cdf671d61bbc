ghost use Rattle.std.specs.Prelude.{◌≡◌};
ghost use Rattle.flights.specs.Words.{word_of, type_read};

use calendar::{Identity, Minute};
use element::Slot;

/// The type of a controlled flight. FA marks a pop-up, which holds no slot.
#[derive(Debug, Clone, Copy, PartialEq, Eq)]
pub enum ControlType {
    Gdp,
    Comp,
    Blkt,
    Gs,
    Sub,
    Fa,
    Upd,
}

impl ControlType {
    /// The types, in the order of their definition.
    const ALL: [ControlType; 7] = [
        ControlType::Gdp,
        ControlType::Comp,
        ControlType::Blkt,
        ControlType::Gs,
        ControlType::Sub,
        ControlType::Fa,
        ControlType::Upd,
    ];

    /// The word that lists write for the type.
    pub fn word(self) -> &'static [u8]
        ensures { result.now ≡ word_of self }
    {
        match self {
            ControlType::Gdp => b"GDP",
            ControlType::Comp => b"COMP",
            ControlType::Blkt => b"BLKT",
            ControlType::Gs => b"GS",
            ControlType::Sub => b"SUB",
            ControlType::Fa => b"FA",
            ControlType::Upd => b"UPD",
        }
    }

    /// The type whose word a text is.
    // Kept: bytes and no Display, since a reply is bytes; and an Option, since none is all that there is to say.
    pub fn read(text: &[u8]) -> Option<ControlType>
        ensures { result ≡ type_read text.now }
    {
        ControlType::ALL
            .iter()
            .copied()
            .find(|control| control.word() == text)
    }
}

/// A flight of the table. Without a type it is uncontrolled, and its CTD and CTA are planned times.
#[derive(Clone, Copy)]
pub struct Flight {
    pub identity: Identity,
    pub slot: Option<Slot>,
    pub ctd: Minute,
    pub cta: Minute,
    pub control: Option<ControlType>,
    pub exempt: bool,
    pub cancelled: bool,
    pub hold: bool,
    pub erta: Option<Minute>,
    pub departed: bool,
}
