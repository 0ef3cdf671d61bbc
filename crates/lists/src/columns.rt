ghost use Rattle.std.specs.Prelude.{◌≡◌, true, false, Some, None, Option};
ghost use Rattle.std.specs.Fn.{FnReturnsAt};
ghost use Rattle.std.specs.Option.{option_map};
ghost use Rattle.text.specs.Lines.{line_of};
ghost use Rattle.calendar.specs.Days.{days_of, minute_of};
ghost use Rattle.element.specs.Kept.{slot_of};
ghost use Rattle.lists.specs.Columns.{columns_read, is_absent, slot_read, erta_read, control_read, mark_read};
ghost use Rattle.lists.specs.Kept.{columns_of};

use calendar::Minute;
use element::{Element, Naming, Slot};
use flights::ControlType;
use text::{Fields, Line};

/// The twelve columns of a flight line.
#[derive(Clone, Copy)]
pub struct Columns<'a> {
    pub id: &'a [u8],
    pub slot: &'a [u8],
    pub departure: &'a [u8],
    pub arrival: &'a [u8],
    pub ctd: &'a [u8],
    pub cta: &'a [u8],
    pub control: &'a [u8],
    pub exempt: &'a [u8],
    pub cancelled: &'a [u8],
    pub hold: &'a [u8],
    pub erta: &'a [u8],
    pub date: &'a [u8],
}

/// The columns of a readable line of twelve fields.
pub fn read_columns<'a>(line: Line<'a>) -> Option<Columns<'a>>
    ensures { option_map columns_of result ≡ columns_read (line_of line.entry) }
{
    if !line.readable {
        return None;
    }
    let mut fields = Fields::new(line.text);
    let columns = Columns {
        id: fields.next()?,
        slot: fields.next()?,
        departure: fields.next()?,
        arrival: fields.next()?,
        ctd: fields.next()?,
        cta: fields.next()?,
        control: fields.next()?,
        exempt: fields.next()?,
        cancelled: fields.next()?,
        hold: fields.next()?,
        erta: fields.next()?,
        date: fields.next()?,
    };
    if fields.next().is_none() {
        Some(columns)
    } else {
        None
    }
}

/// Whether a column says that there is nothing.
fn is_absent(text: &[u8]) -> bool
    ensures { result ≡ is_absent text.now }
{
    matches!(text, b"-")
}

/// What a column says where it is not "-", which stands for nothing.
// Kept: an Option of an Option. The outer None, of an unreadable column, is passed on by `?` with those of
// the other columns; an error type of one value would say no more, and each `?` would have to drop it.
fn read_given<T, F: Fn(&[u8]) -> Option<T>>(text: &[u8], read: F) -> Option<Option<T>>
    requires { F.IsAlwaysCallable read }
    ensures absent { is_absent text.now ≡ true → result ≡ Some None }
    ensures given { is_absent text.now ≡ false → (r : Option T) × FnReturnsAt F.Fn read text.now r × (result ≡ option_map Some r) }
{
    if is_absent(text) {
        Some(None)
    } else {
        read(text).map(Some)
    }
}

/// A slot name of the element, or none.
// Kept: beside `read_erta` and `read_control`, each the name of one call of `read_given`.
pub fn read_slot<E: Element>(naming: &Naming<E>, text: &[u8]) -> Option<Option<Slot>>
    ensures { option_map (option_map slot_of) result ≡ slot_read (E.Element.means naming.now.element.now) (days_of naming.now.days) text.now }
{
    read_given(text, |name| naming.read_name(name))
}

/// A time, or none.
pub fn read_erta<E: Element>(naming: &Naming<E>, text: &[u8]) -> Option<Option<Minute>>
    ensures { option_map (option_map minute_of) result ≡ erta_read (days_of naming.now.days) text.now }
{
    read_given(text, |time| naming.read_time(time))
}

/// One of the seven types, or none for an uncontrolled flight.
pub fn read_control(text: &[u8]) -> Option<Option<ControlType>>
    ensures { result ≡ control_read text.now }
{
    read_given(text, |word| ControlType::read(word))
}

/// A mark: Y, or - where it is not set.
pub fn read_mark(text: &[u8]) -> Option<bool>
    ensures { result ≡ mark_read text.now }
{
    match text {
        b"Y" => Some(true),
        b"-" => Some(false),
        _ => None,
    }
}
