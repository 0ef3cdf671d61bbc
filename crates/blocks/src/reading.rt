ghost use Rattle.std.specs.Prelude.{◌≡◌};
ghost use Rattle.text.specs.Lines.{fields_left};
ghost use Rattle.blocks.specs.Told.{told_of};
ghost use Rattle.blocks.specs.Understood.{first_line, from_lf, understood, one_line, switching, purging, departing};

use crate::block::Block;
use calendar::FlightTexts;
use text::{Fields, run_len};

/// The first line of a body, and all from its LF on.
#[tactic(auto, using(crate::proofs::Cuts::run_within))]
fn cut_line(body: &[u8]) -> (&[u8], &[u8])
    ensures line { result.0.now ≡ first_line body.now }
    ensures rest { result.1.now ≡ from_lf body.now }
{
    let n = run_len(body, b'\n');
    body.split_at(n)
}

/// What a body says, by the first field of its first line; none where it is not understood.
pub(crate) fn read<'a>(body: &'a [u8]) -> Option<Block<'a>>
    ensures { told_of result ≡ understood body.now }
{
    let (line, rest) = cut_line(body);
    let mut fields = Fields::new(line);
    let word = fields.next()?;
    if word == b"ISSUE".as_slice() {
        Some(Block::Issue(body))
    } else if rest == b"\n".as_slice() {
        read_line(word, fields)
    } else {
        None
    }
}

/// What a body of one line says: `word` is its first field, and `fields` are the others.
// Kept: a ladder of ==: with a match on the byte strings the proof of what it answers did not close.
fn read_line<'a>(word: &[u8], fields: Fields<'a>) -> Option<Block<'a>>
    ensures { told_of result ≡ one_line word.now (fields_left fields.entry) }
{
    if word == b"SWITCH".as_slice() {
        read_switch(fields)
    } else if word == b"PURGE".as_slice() {
        read_purge(fields)
    } else if word == b"DEPART".as_slice() {
        read_depart(fields)
    } else {
        None
    }
}

fn read_switch<'a>(mut fields: Fields<'a>) -> Option<Block<'a>>
    ensures { told_of result ≡ switching (fields_left fields.entry) }
{
    match (fields.next()?, fields.next()) {
        (b"ON", None) => Some(Block::Switch(true)),
        (b"OFF", None) => Some(Block::Switch(false)),
        _ => None,
    }
}

fn read_purge<'a>(mut fields: Fields<'a>) -> Option<Block<'a>>
    ensures { told_of result ≡ purging (fields_left fields.entry) }
{
    match fields.next() {
        None => Some(Block::Purge),
        Some(_) => None,
    }
}

fn read_depart<'a>(mut fields: Fields<'a>) -> Option<Block<'a>>
    ensures { told_of result ≡ departing (fields_left fields.entry) }
{
    // Kept: four lines as messages has them: a clause on what reading them leaves of the fields would be longer.
    let flight = FlightTexts {
        id: fields.next()?,
        departure: fields.next()?,
        arrival: fields.next()?,
        date: fields.next()?,
    };
    match fields.next() {
        None => Some(Block::Depart(flight)),
        Some(_) => None,
    }
}
