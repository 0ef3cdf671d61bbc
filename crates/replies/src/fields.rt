ghost use Rattle.std.specs.Prelude.{◌≡◌, ◌+◌, ◌≤◌, length, drop};
ghost use Rattle.std.specs.Option.{option_map};
ghost use Rattle.calendar.specs.Days.{days_of, minute_of};
ghost use Rattle.writing.specs.Writers.{HasRoom, Puts};
ghost use Rattle.replies.specs.Rows.{spaced, mark, type_shown, time_shown};

use calendar::Minute;
use element::{Element, Naming};
use flights::ControlType;
use writing::Writer;

/// A field and the space after it.
pub(crate) fn put_field(reply: &mut Writer, text: &[u8])
    requires room { HasRoom reply.old (length text.now + 1) }
    ensures puts { Puts reply.old (spaced text.now) reply.new }
    ensures most { reply.new.written ≤ reply.old.written + length text.now + 1 }
{
    reply.put(text);
    reply.put_byte(b' ');
}

/// The six digits of a minute as a field, and `-` where there is none.
pub(crate) fn put_time<E: Element>(reply: &mut Writer, naming: &Naming<E>, minute: Option<Minute>)
    requires room { HasRoom reply.old 7 }
    ensures puts { Puts reply.old (spaced (time_shown (days_of naming.now.days) (option_map minute_of minute))) reply.new }
    ensures most { reply.new.written ≤ reply.old.written + 7 }
{
    match minute {
        Some(minute) => put_field(reply, &naming.write_time(minute)),
        None => put_field(reply, b"-"),
    }
}

/// The word of a type, and `-` where there is none.
pub(crate) fn type_shown(control: Option<ControlType>) -> &'static [u8]
    ensures word { result.now ≡ type_shown control }
    ensures short { length result.now ≤ 4 }
{
    control.map_or(b"-", ControlType::word)
}

/// Whether something holds: `Y` or `-`.
pub(crate) fn mark(holds: bool) -> &'static [u8]
    ensures letter { result.now ≡ mark holds }
    ensures short { length result.now ≤ 1 }
{
    if holds { b"Y" } else { b"-" }
}

/// A text without its first two bytes.
pub(crate) fn past_two(text: &[u8]) -> &[u8]
    ensures rest { result.now ≡ drop 2 text.now }
    ensures short { length result.now ≤ length text.now }
{
    text.get(2..).unwrap_or(b"")
}
