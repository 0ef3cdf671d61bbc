ghost use Rattle.std.specs.Prelude.{◌≡◌, ◌∷◌};
ghost use Rattle.std.specs.Option.{option_map};
ghost use Rattle.text.specs.Lines.{line_of, fields_left};
ghost use Rattle.messages.specs.Messages.{tags_from, no_tags, taken, and_then, written_from, written};
ghost use Rattle.messages.specs.Kept.{tags_of, written_of};

use crate::kind::MessageType;
use crate::tags::{Tags, read_tags};
use calendar::{FlightTexts, is_airport, is_id};
use text::{Fields, Line};

/// A message by the texts of its line, of which it holds parts.
#[derive(Clone, Copy)]
pub struct Written<'a> {
    pub kind: MessageType,
    pub flight: FlightTexts<'a>,
    pub tags: Tags<'a>,
}

/// The tags that the fields left are, where the type takes them.
fn read_taken<'a>(kind: MessageType, fields: Fields<'a>) -> Option<Tags<'a>>
    ensures { option_map tags_of result ≡ and_then (tags_from no_tags (fields_left fields.entry)) (taken kind) }
{
    read_tags(fields).filter(|tags| tags.suit(kind))
}

/// The message of these texts and the tags that the fields left are.
fn read_parts<'a>(word: &[u8], flight: FlightTexts<'a>, fields: Fields<'a>) -> Option<Written<'a>>
    ensures { option_map written_of result ≡ written_from (word.now ∷ flight.entry.id.now ∷ flight.entry.departure.now ∷ flight.entry.arrival.now ∷ flight.entry.date.now ∷ fields_left fields.entry) }
{
    if !is_id(flight.id) || !is_airport(flight.departure) || !is_airport(flight.arrival) {
        return None;
    }
    let kind = MessageType::read(word)?;
    let tags = read_taken(kind, fields)?;
    Some(Written { kind, flight, tags })
}

/// The message that the fields left are.
fn read_fields<'a>(mut fields: Fields<'a>) -> Option<Written<'a>>
    ensures { option_map written_of result ≡ written_from (fields_left fields.entry) }
{
    let word = fields.next()?;
    // Kept: four lines as blocks has them: a clause on what reading them leaves of the fields would be longer.
    let flight = FlightTexts {
        id: fields.next()?,
        departure: fields.next()?,
        arrival: fields.next()?,
        date: fields.next()?,
    };
    read_parts(word, flight, fields)
}

/// The message that a line writes: none where the line is not readable, or its type, tags, SH value, field count, ID or airports are not as they have to be.
pub fn read_message<'a>(line: Line<'a>) -> Option<Written<'a>>
    ensures { option_map written_of result ≡ written (line_of line.entry) }
{
    if line.readable {
        read_fields(Fields::new(line.text))
    } else {
        None
    }
}
