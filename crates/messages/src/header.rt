ghost use Rattle.std.specs.Prelude.{◌≡◌, ◌≤◌, length};
ghost use Rattle.std.specs.Option.{option_map};
ghost use Rattle.text.specs.Lines.{line_of};
ghost use Rattle.calendar.specs.Identities.{text_where};
ghost use Rattle.messages.specs.Headers.{is_identifier, header_read};
ghost use Rattle.messages.specs.Kept.{identifier_of};

use text::{Fields, Line, ShortText, all_capitals, all_capitals_or_digits, all_digits};

/// The identifier of a packet, made only by reading one.
#[derive(Clone, Copy)]
pub struct Identifier {
    text: ShortText<16>,
}

/// Whether a text is three capital letters, ten digits, a point and two capital letters or digits.
fn is_identifier(text: &[u8]) -> bool
    ensures { result ≡ is_identifier text.now }
{
    text.len() == 16
        && all_capitals(&text[..3])
        && all_digits(&text[3..13])
        && text[13] == b'.'
        && all_capitals_or_digits(&text[14..])
}

impl Identifier {
    /// The identifier that a text is.
    // Kept: an Option and no TryFrom: none is all that there is to say of an error.
    fn read(text: &[u8]) -> Option<Identifier>
        ensures { option_map identifier_of result ≡ text_where (is_identifier text.now) text.now }
    {
        if !is_identifier(text) {
            return None;
        }
        let text = ShortText::new(text)?;
        Some(Identifier { text })
    }

    /// Its sixteen bytes.
    pub fn as_bytes(&self) -> &[u8]
        ensures text { result.now ≡ identifier_of self.now }
        ensures short { length result.now ≤ 16 }
    {
        self.text.as_bytes()
    }
}

/// The identifier of a header: a readable line of SS and an identifier.
pub fn read_header<'a>(line: Line<'a>) -> Option<Identifier>
    ensures { option_map identifier_of result ≡ header_read (line_of line.entry) }
{
    if !line.readable {
        return None;
    }
    let mut fields = Fields::new(line.text);
    let word = fields.next()?;
    let id = fields.next()?;
    match (word, fields.next()) {
        (b"SS", None) => Identifier::read(id),
        _ => None,
    }
}
