ghost use Rattle.std.specs.Prelude.{◌<◌, ◌≤◌};

// Kept: ghost fields and no Model. Under one a value in hand shows no bounds, so that the name of a pair is read back as that
// pair (kept_days and kept_pair of element) stayed open: each call that lends days or a minute would have to say them again.

/// The days that a program lies on: the base day and the six after it. After the last day of the
/// base day's month, whose length is `month`, comes day 1.
#[derive(Clone, Copy)]
pub struct Days {
    pub(crate) base: u8,
    pub(crate) month: u8,
    ghost from: { 1 ≤ base },
    ghost within: { base ≤ month },
    ghost least: { 28 ≤ month },
    ghost most: { month ≤ 31 },
}

/// A minute of an element's days, counted from the start of the base day: 0 to 10,079.
#[derive(Clone, Copy, Debug, PartialEq, Eq, PartialOrd, Ord)]
pub struct Minute {
    pub(crate) value: u16,
    ghost week: { value < 10080 },
}
