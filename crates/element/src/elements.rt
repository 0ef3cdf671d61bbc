ghost use Rattle.std.specs.Prelude.{◌≡◌, true, false, MatchOption};
ghost use Rattle.text.specs.Short.{text_of};
ghost use Rattle.calendar.specs.Days.{days_of};
ghost use Rattle.element.specs.Pointed.{pointed_meaning};
ghost use Rattle.element.specs.ElementLaws.{pointed_apart, pointed_formed};

use crate::model::{Element, SlotName};
use crate::names::{read_pointed, write_pointed};
use crate::pointed::{Kind, Named};
use crate::slot::Slot;
use calendar::Days;
use std::marker::PhantomData;
use text::ShortText;

impl<K: Kind> Named<K> {
    /// The element with a name of its kind's form, on the days given.
    pub fn new(name: &[u8], days: Days) -> Option<Named<K>>
        ensures { MatchOption result (K.is_name name.now ≡ false) (λ a. (K.is_name name.now ≡ true) × (text_of a.name ≡ name.now) × (a.days ≡ days)) }
    {
        if !K::is_name(name) {
            return None;
        }
        Some(Named {
            name: ShortText::new(name)?,
            days,
            kind: PhantomData,
        })
    }
}

impl<K: Kind> Element for Named<K> {
    ghost span = { λ e. days_of e.days };

    ghost means = { λ e. pointed_meaning K.word K.serves (text_of e.name) };

    ghost formed = { λ e. pointed_formed K.word K.serves (text_of e.name) (K.short_name (text_of e.name) e.form) (K.letters (text_of e.name) e.form) K.short_word };

    ghost apart = { λ e d days. pointed_apart (text_of e.name) d days };

    fn days(&self) -> Days {
        self.days
    }

    fn set_days(&mut self, days: Days) {
        self.days = days;
    }

    fn name(&self) -> &[u8] {
        self.name.as_bytes()
    }

    fn column_word(&self) -> &[u8] {
        K::column_word()
    }

    fn serves(&self, airport: &[u8]) -> bool {
        K::serves(self.name.as_bytes(), airport)
    }

    fn read_name(&self, days: &Days, text: &[u8]) -> Option<Slot> {
        read_pointed(self.name.as_bytes(), days, text)
    }

    fn write_name(&self, days: &Days, slot: &Slot) -> SlotName {
        write_pointed(self.name.as_bytes(), days, slot)
    }
}
