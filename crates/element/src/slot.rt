ghost use Rattle.std.specs.Prelude.{◌≤◌};

use calendar::Minute;

/// A minute and a letter A to Z: an arrival slot, unless the letter is Z, which marks pop-ups.
#[derive(Clone, Copy, Debug, PartialEq, Eq)]
pub struct Slot {
    pub(crate) minute: Minute,
    pub(crate) letter: u8,
    ghost least: { 65 ≤ letter },
    ghost most: { letter ≤ 90 },
}
