ghost use Rattle.std.specs.Prelude.{◌≡◌};
ghost use Rattle.std.specs.Option.{option_map};
ghost use Rattle.text.specs.Lines.{line_of};
ghost use Rattle.calendar.specs.Days.{days_of, minute_of};
ghost use Rattle.element.specs.Kept.{slot_of};
ghost use Rattle.messages.specs.Kept.{written_of};
ghost use Rattle.packets.specs.Messages.{time_given, slot_given, message_of, message_read};
ghost use Rattle.substitutions.specs.Kept.{given_of, kept_message, lent};

use crate::message::{Invalid, Message, Tagged};
use calendar::{Days, Identity, Minute};
use element::{Element, Naming, Slot};
use messages::{Written, read_message};
use text::Line;

/// What a tag gives that holds a time.
fn time_given(days: &Days, text: Option<&[u8]>) -> Tagged<Minute>
    ensures { given_of minute_of result ≡ time_given (days_of days.now) (option_map lent text.entry) }
{
    text.map(|t| days.read_time(t).ok_or(Invalid)).transpose()
}

/// What a tag gives that holds a slot name; the letter Z names no slot.
fn slot_given<E: Element>(naming: &Naming<E>, text: Option<&[u8]>) -> Tagged<Slot>
    ensures { given_of slot_of result ≡ slot_given ((E.means naming.now.element.now).slot_name (days_of naming.now.days)) (option_map lent text.entry) }
{
    let Naming { element, days } = *naming;
    text.map(|t| {
        let slot = element.read_name(&days, t).filter(|s| !s.marks_pop_up());
        slot.ok_or(Invalid)
    })
    .transpose()
}

/// What a message asks.
fn message_of<E: Element>(naming: &Naming<E>, written: Written) -> Message
    ensures { kept_message result ≡ message_of (E.means naming.now.element.now) (days_of naming.now.days) (written_of written.entry) }
{
    let tags = written.tags;
    Message {
        kind: written.kind,
        identity: Identity::read(written.flight),
        ctd: time_given(&naming.days, tags.ctd),
        cta: time_given(&naming.days, tags.cta),
        erta: time_given(&naming.days, tags.erta),
        slot: slot_given(naming, tags.slot),
        hold: tags.hold.unwrap_or(false),
    }
}

/// What the message of a line asks; none where the line is no message.
pub fn read_substitution<E: Element>(naming: &Naming<E>, line: Line) -> Option<Message>
    ensures { option_map kept_message result ≡ message_read (E.means naming.now.element.now) (days_of naming.now.days) (line_of line.entry) }
{
    let written = read_message(line)?;
    Some(message_of(naming, written))
}
