ghost use Rattle.std.specs.Prelude.{◌≡◌, Some};
ghost use Rattle.std.specs.Option.{option_map};
ghost use Rattle.text.specs.Short.{text_of};
ghost use Rattle.calendar.specs.Days.{Days as DaysMeant, days_of};
ghost use Rattle.element.specs.Meanings.{Meaning, Formed, SlotNamesApart, ReadsItsName, name_read};
ghost use Rattle.element.specs.Kept.{slot_of};

use crate::slot::Slot;
use calendar::Days;
use text::ShortText;

/// The name of a slot, of at most 14 bytes.
pub type SlotName = ShortText<14>;

/// A controlled element: an airport or a flow constrained area.
pub trait Element {
    /// The days that it lies on.
    ghost span: { Self → DaysMeant };

    /// What it is apart from these.
    ghost means: { Self → Meaning };

    fn days(&self) -> Days
        ensures { days_of result ≡ span self.now };

    /// Sets the days and nothing else.
    fn set_days(&mut self, days: Days)
        ensures span { span self.new ≡ days_of days }
        ensures rest { means self.new ≡ means self.old };

    fn name(&self) -> &[u8]
        ensures { result.now ≡ (means self.now).name };

    /// The word for the last column but one of a slot list.
    fn column_word(&self) -> &[u8]
        ensures { result.now ≡ (means self.now).word };

    /// Whether it serves an arrival airport.
    fn serves(&self, airport: &[u8]) -> bool
        ensures { result ≡ (means self.now).serves airport.now };

    /// The pair whose name, by the days given, the text is.
    fn read_name(&self, days: &Days, text: &[u8]) -> Option<Slot>
        ensures exactly { ReadsItsName ((means self.now).slot_name (days_of days.now)) text.now }
        ensures value { option_map slot_of result ≡ name_read ((means self.now).slot_name (days_of days.now)) text.now };

    /// The name of a pair by the days given.
    fn write_name(&self, days: &Days, slot: &Slot) -> SlotName
        ensures back { name_read ((means self.now).slot_name (days_of days.now)) (text_of result) ≡ Some (slot_of slot.now) }
        ensures value { text_of result ≡ (means self.now).slot_name (days_of days.now) (slot_of slot.now) };

    /// Its texts have their form.
    ghost formed: { (e : Self) → Formed (means e) };

    /// Two different pairs of minute and letter never share a name.
    ghost apart: { (e : Self) → SlotNamesApart (means e) };
}
