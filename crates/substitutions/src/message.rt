use calendar::{Identity, Minute};
use element::Slot;
use messages::MessageType;

/// The value of a tag is not valid.
#[derive(Clone, Copy, Debug, PartialEq, Eq)]
pub struct Invalid;

/// What a tag gives: a value, nothing where there is no such tag, or that its value is not valid.
pub type Tagged<T> = Result<Option<T>, Invalid>;

/// What a message asks, by the element's names and days. The identity is absent where the date is
/// not valid.
#[derive(Clone, Copy)]
pub struct Message {
    pub kind: MessageType,
    pub identity: Option<Identity>,
    pub ctd: Tagged<Minute>,
    pub cta: Tagged<Minute>,
    pub erta: Tagged<Minute>,
    pub slot: Tagged<Slot>,
    pub hold: bool,
}

/// The CTD, the CTA and the slot that a move or an SC asks for.
#[derive(Clone, Copy)]
pub struct Seat {
    pub ctd: Minute,
    pub cta: Minute,
    pub slot: Slot,
}
