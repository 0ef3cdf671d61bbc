use text::ShortText;

/// What identifies a flight: its ID, its departure and arrival airport, and its original departure
/// date (IGTD). It is only made by reading four texts.
#[derive(Clone, Copy, PartialEq, Eq)]
pub struct Identity {
    pub(crate) id: ShortText<7>,
    pub(crate) departure: ShortText<4>,
    pub(crate) arrival: ShortText<4>,
    pub(crate) date: ShortText<8>,
}

/// The four texts that name a flight: its ID, its departure and arrival airport, and its date.
#[derive(Clone, Copy)]
pub struct FlightTexts<'a> {
    pub id: &'a [u8],
    pub departure: &'a [u8],
    pub arrival: &'a [u8],
    pub date: &'a [u8],
}
