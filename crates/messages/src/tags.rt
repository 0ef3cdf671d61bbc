ghost use Rattle.std.specs.Prelude.{◌≡◌};
ghost use Rattle.std.specs.Iterator.{YieldsFirstBy, item_count};
ghost use Rattle.std.specs.Option.{option_map};
ghost use Rattle.text.specs.Lines.{fields_left};
ghost use Rattle.messages.specs.Messages.{tag_read, hold_read, with_tag, tags_from, no_tags, takes};
ghost use Rattle.messages.specs.Kept.{said_of, said_in, tags_of, tags_left};

use crate::kind::MessageType;
use text::Fields;

/// A field that is no tag, or a tag without its value.
#[derive(Clone, Copy, Debug, PartialEq, Eq)]
struct Unreadable;

/// A tag with its value, a part of the line.
// Kept: the project's rules ask for this enum, whose cases hold parts of the line.
#[derive(Clone, Copy)]
enum Tag<'a> {
    T5(&'a [u8]),
    T6(&'a [u8]),
    T8(&'a [u8]),
    A2(&'a [u8]),
    SH(&'a [u8]),
}

/// The value of an SH: Y or N.
fn read_hold(value: &[u8]) -> Option<bool>
    ensures { result ≡ hold_read value.now }
{
    let [letter] = value else {
        return None;
    };
    match char::from(*letter) {
        'Y' => Some(true),
        'N' => Some(false),
        _ => None,
    }
}

fn read_tag<'a>(word: &[u8], value: &'a [u8]) -> Option<Tag<'a>>
    ensures { option_map said_of result ≡ tag_read word.now value.now }
{
    match word {
        b"T5" => Some(Tag::T5(value)),
        b"T6" => Some(Tag::T6(value)),
        b"T8" => Some(Tag::T8(value)),
        b"A2" => Some(Tag::A2(value)),
        b"SH" => Some(Tag::SH(value)),
        _ => None,
    }
}

/// The tags of a line, read one at a time off the fields left, two to a tag.
#[derive(Clone, Copy)]
struct TagFields<'a> {
    fields: Fields<'a>,
}

impl<'a> Iterator for TagFields<'a> {
    type Item = Result<Tag<'a>, Unreadable>;

    ghost next_gives = { YieldsFirstBy said_in tags_left };

    ghost remaining = { item_count tags_left };

    fn next(&mut self) -> Option<Result<Tag<'a>, Unreadable>> {
        let word = self.fields.next()?;
        let Some(value) = self.fields.next() else {
            return Some(Err(Unreadable));
        };
        Some(read_tag(word, value).ok_or(Unreadable))
    }
}

/// The tags of a line, each at most once.
#[derive(Clone, Copy)]
pub struct Tags<'a> {
    pub ctd: Option<&'a [u8]>,
    pub cta: Option<&'a [u8]>,
    pub erta: Option<&'a [u8]>,
    pub slot: Option<&'a [u8]>,
    pub hold: Option<bool>,
}

impl<'a> Tags<'a> {
    /// With one more tag, where it is not there yet.
    fn with(mut self, tag: Tag<'a>) -> Option<Tags<'a>>
        ensures { option_map tags_of result ≡ with_tag (tags_of self.entry) (said_of tag.entry) }
    {
        let earlier = match tag {
            Tag::T5(v) => self.ctd.replace(v).is_some(),
            Tag::T6(v) => self.cta.replace(v).is_some(),
            Tag::T8(v) => self.erta.replace(v).is_some(),
            Tag::A2(v) => self.slot.replace(v).is_some(),
            Tag::SH(v) => self.hold.replace(read_hold(v)?).is_some(),
        };
        if earlier { None } else { Some(self) }
    }

    /// Whether a message of the type takes these tags.
    pub(crate) fn suit(&self, kind: MessageType) -> bool
        ensures { result ≡ takes kind (tags_of self.now) }
    {
        match kind {
            MessageType::Fx => {
                self.ctd.is_none()
                    && self.cta.is_none()
                    && self.erta.is_none()
                    && self.slot.is_none()
            }
            MessageType::Fm => self.hold.is_none(),
            MessageType::Sc => self.erta.is_none() && self.hold.is_none(),
        }
    }
}

/// The tags that the fields left are, two to a tag.
#[tactic(auto, using(crate::proofs::TagSteps::with_all_read))]
pub(crate) fn read_tags<'a>(fields: Fields<'a>) -> Option<Tags<'a>>
    ensures { option_map tags_of result ≡ tags_from no_tags (fields_left fields.entry) }
{
    // Kept: `Tags::default()` here leaves the loop without a proof: the borrow checker doesn't cover it.
    let mut tags = Tags {
        ctd: None,
        cta: None,
        erta: None,
        slot: None,
        hold: None,
    };
    for tag in (TagFields { fields }) {
        tags = tags.with(tag.ok()?)?;
    }
    Some(tags)
}
