ghost use Rattle.std.specs.Prelude.{◌≡◌, Some};
ghost use Rattle.std.specs.Option.{option_map};
ghost use Rattle.text.specs.Short.{text_of};
ghost use Rattle.calendar.specs.Days.{days_of, minute_of, time_read, time_written, ReadsItsDigits};
ghost use Rattle.element.specs.Meanings.{ReadsItsName, name_read};
ghost use Rattle.element.specs.Kept.{slot_of};

use crate::model::{Element, SlotName};
use crate::slot::Slot;
use calendar::{Days, Minute};

/// An element, and the days by which its slot names and all times are read and written.
#[derive_where(Clone, Copy)]
pub struct Naming<'a, E: Element> {
    pub element: &'a E,
    pub days: Days,
}

impl<'a, E: Element> Naming<'a, E> {
    /// The pair whose name the text is.
    pub fn read_name(&self, text: &[u8]) -> Option<Slot>
        ensures exactly { ReadsItsName ((E.Element.means self.now.element.now).slot_name (days_of self.now.days)) text.now }
        ensures value { option_map slot_of result ≡ name_read ((E.Element.means self.now.element.now).slot_name (days_of self.now.days)) text.now }
    {
        self.element.read_name(&self.days, text)
    }

    /// The name of a pair.
    pub fn write_name(&self, slot: &Slot) -> SlotName
        ensures back { name_read ((E.Element.means self.now.element.now).slot_name (days_of self.now.days)) (text_of result) ≡ Some (slot_of slot.now) }
        ensures value { text_of result ≡ (E.Element.means self.now.element.now).slot_name (days_of self.now.days) (slot_of slot.now) }
    {
        self.element.write_name(&self.days, slot)
    }

    /// The minute that a text of six digits names.
    pub fn read_time(&self, text: &[u8]) -> Option<Minute>
        ensures exactly { ReadsItsDigits (days_of self.now.days) text.now }
        ensures value { option_map minute_of result ≡ time_read (days_of self.now.days) text.now }
    {
        self.days.read_time(text)
    }

    /// The six digits of a minute.
    pub fn write_time(&self, minute: Minute) -> [u8; 6]
        ensures back { time_read (days_of self.now.days) result ≡ Some (minute_of minute) }
        ensures value { result ≡ time_written (days_of self.now.days) (minute_of minute) }
    {
        self.days.write_time(minute)
    }
}
