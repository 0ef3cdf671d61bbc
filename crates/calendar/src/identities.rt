ghost use Rattle.std.specs.Prelude.{◌≡◌, ◌≤◌, true, length};
ghost use Rattle.std.specs.Option.{option_map};
ghost use Rattle.text.specs.Short.{text_of};
ghost use Rattle.calendar.specs.Identities.{is_id, is_airport, text_where, identity_read, identity_of, carrier_of};

use crate::dates::is_date;
use crate::identity::{FlightTexts, Identity};
use text::{ShortText, all_capitals, all_capitals_or_digits};

/// Whether a text is three capital letters and then 1 to 4 capital letters or digits.
pub fn is_id(text: &[u8]) -> bool
    ensures { result ≡ is_id text.now }
{
    (4..=7).contains(&text.len()) && all_capitals(&text[..3]) && all_capitals_or_digits(&text[3..])
}

/// Whether a text is 3 or 4 capital letters or digits.
pub fn is_airport(text: &[u8]) -> bool
    ensures { result ≡ is_airport text.now }
{
    (3..=4).contains(&text.len()) && all_capitals_or_digits(text)
}

/// A text, where it has the form asked for.
fn read_where<const N: usize>(fits: bool, text: &[u8]) -> Option<ShortText<N>>
    requires { fits ≡ true → length text.now ≤ N }
    ensures { option_map text_of result ≡ text_where fits text.now }
{
    if fits { ShortText::new(text) } else { None }
}

impl Identity {
    /// The identity that four texts write: none where one of them has not its form.
    pub fn read(texts: FlightTexts) -> Option<Identity>
        ensures { option_map identity_of result ≡ identity_read texts.entry.id.now texts.entry.departure.now texts.entry.arrival.now texts.entry.date.now }
    {
        Some(Identity {
            id: read_where(is_id(texts.id), texts.id)?,
            departure: read_where(is_airport(texts.departure), texts.departure)?,
            arrival: read_where(is_airport(texts.arrival), texts.arrival)?,
            date: read_where(is_date(texts.date), texts.date)?,
        })
    }

    /// The carrier code: the first three letters of the ID.
    pub fn carrier(&self) -> &[u8]
        ensures text { result.now ≡ carrier_of (identity_of self.now) }
        ensures short { length result.now ≤ 3 }
    {
        let id = self.id.as_bytes();
        &id[..3.min(id.len())]
    }

    /// The flight's ID.
    pub fn id(&self) -> &[u8]
        ensures text { result.now ≡ (identity_of self.now).id }
        ensures short { length result.now ≤ 7 }
    {
        self.id.as_bytes()
    }

    /// The departure airport.
    pub fn departure(&self) -> &[u8]
        ensures text { result.now ≡ (identity_of self.now).departure }
        ensures short { length result.now ≤ 4 }
    {
        self.departure.as_bytes()
    }

    /// The original departure date.
    pub fn date(&self) -> &[u8]
        ensures text { result.now ≡ (identity_of self.now).date }
        ensures short { length result.now ≤ 8 }
    {
        self.date.as_bytes()
    }

    /// The arrival airport.
    pub fn arrival(&self) -> &[u8]
        ensures text { result.now ≡ (identity_of self.now).arrival }
        ensures short { length result.now ≤ 4 }
    {
        self.arrival.as_bytes()
    }
}
