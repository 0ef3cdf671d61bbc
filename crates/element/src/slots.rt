ghost use Rattle.std.specs.Prelude.{◌≡◌, if◌then◌else◌, Some, None};
ghost use Rattle.std.specs.Option.{option_map};
ghost use Rattle.text.specs.Bytes.{is_capital};
ghost use Rattle.calendar.specs.Days.{minute_of};
ghost use Rattle.element.specs.Slots.{marks_pop_up, pop_up_at};
ghost use Rattle.element.specs.Pointed.{with_letter};
ghost use Rattle.element.specs.Kept.{slot_of};

use crate::slot::Slot;
use calendar::Minute;

impl Slot {
    /// The pair of a minute and a letter A to Z.
    // Kept: `new` and an Option, as Minute has it.
    pub fn new(minute: Minute, letter: u8) -> Option<Slot>
        ensures { option_map slot_of result ≡ (if is_capital letter then Some (with_letter letter (minute_of minute)) else None) }
    {
        if letter.is_ascii_uppercase() {
            Some(Slot { minute, letter })
        } else {
            None
        }
    }

    /// The pair of a minute and the letter Z, which marks pop-ups.
    pub fn pop_up(minute: Minute) -> Slot
        ensures { slot_of result ≡ pop_up_at (minute_of minute) }
    {
        Slot {
            minute,
            letter: b'Z',
        }
    }

    pub fn letter(&self) -> u8
        ensures { result ≡ (slot_of self.now).letter }
    {
        self.letter
    }

    pub fn minute(&self) -> Minute
        ensures { minute_of result ≡ (slot_of self.now).minute }
    {
        self.minute
    }

    /// Whether the letter is Z, which names no slot.
    pub fn marks_pop_up(&self) -> bool
        ensures { result ≡ marks_pop_up (slot_of self.now) }
    {
        self.letter == b'Z'
    }
}
