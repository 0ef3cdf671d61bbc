ghost use Rattle.std.specs.Prelude.{◌≡◌, ◌≤◌, length};
ghost use Rattle.std.specs.Option.{option_map};
ghost use Rattle.text.specs.Short.{text_of};
ghost use Rattle.calendar.specs.Days.{days_of};
ghost use Rattle.element.specs.Pointed.{suffix_read, pointed_read, pointed_name};
ghost use Rattle.element.specs.Kept.{slot_of};

use crate::model::SlotName;
use crate::slot::Slot;
use calendar::Days;
use text::ShortText;

/// Reads what follows the element's name: a point, a time, a letter.
fn read_suffix(days: &Days, text: &[u8]) -> Option<Slot>
    ensures { option_map slot_of result ≡ suffix_read (days_of days.now) text.now }
{
    let [b'.', time @ .., letter @ b'A'..=b'Z'] = text else {
        return None;
    };
    Slot::new(days.read_time(time)?, *letter)
}

/// Reads a slot name of the element with the name given.
// Kept: by place, since with strip_prefix a text of another name took twice as many instructions.
pub(crate) fn read_pointed(name: &[u8], days: &Days, text: &[u8]) -> Option<Slot>
    ensures { option_map slot_of result ≡ pointed_read name.now (days_of days.now) text.now }
{
    let n = name.len();
    if n <= text.len() && &text[..n] == name {
        read_suffix(days, &text[n..])
    } else {
        None
    }
}

/// The slot name of the element with the name given.
pub(crate) fn write_pointed(name: &[u8], days: &Days, slot: &Slot) -> SlotName
    requires { length name.now ≤ 6 }
    ensures { text_of result ≡ pointed_name name.now (days_of days.now) (slot_of slot.now) }
{
    let [a, b, c, d, e, f] = days.write_time(slot.minute);
    ShortText::joined(name, &[b'.', a, b, c, d, e, f, slot.letter])
}
