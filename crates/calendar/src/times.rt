ghost use Rattle.std.specs.Prelude.{◌≡◌, ◌<◌, if◌then◌else◌, Some, None, nat_le};
ghost use Rattle.std.specs.Option.{option_map};
ghost use Rattle.calendar.specs.Days.{days_of, minute_of, days_read, minute_at, time_read, time_written, day_after, ReadsItsDigits};

use crate::days::{Days, Minute};
use crate::digits::{digits_of, number_of, two_digits};

impl Minute {
    /// The minute with a number below 10,080.
    // Kept: `new` and an Option, as NonZero has it in the library: none is all that there is to say of an error.
    pub fn new(value: u16) -> Option<Minute>
        ensures { option_map minute_of result ≡ (if nat_le value 10079 then Some value else None) }
    {
        if value <= 10_079 {
            Some(Minute { value })
        } else {
            None
        }
    }

    /// The minute's number, 0 to 10,079.
    pub fn value(self) -> u16
        ensures value { result ≡ minute_of self }
        ensures week { result < 10080 }
    {
        self.value
    }
}

impl Days {
    /// The days of two texts of two digits: the base day, and the length of its month.
    pub fn read(base: &[u8], month: &[u8]) -> Option<Days>
        ensures { option_map days_of result ≡ days_read base.now month.now }
    {
        let base = number_of(base)?;
        let month = number_of(month)?;
        if (28..=31).contains(&month) && (1..=month).contains(&base) {
            Some(Days { base, month })
        } else {
            None
        }
    }

    /// The minute of a day, an hour and a minute of the hour.
    fn minute_at(&self, dd: u8, hh: u8, mm: u8) -> Option<Minute>
        ensures { option_map minute_of result ≡ minute_at (days_of self.now) dd hh mm }
    {
        if !(1..=self.month).contains(&dd) || hh > 23 || mm > 59 {
            return None;
        }
        let since = if dd >= self.base {
            dd - self.base
        } else {
            dd + self.month - self.base
        };
        if since > 6 {
            return None;
        }
        Some(Minute {
            value: 1440 * since as u16 + 60 * hh as u16 + mm as u16,
        })
    }

    /// The minute that a text of six digits names: day, hour, minute.
    pub fn read_time(&self, text: &[u8]) -> Option<Minute>
        ensures value { option_map minute_of result ≡ time_read (days_of self.now) text.now }
        ensures exactly { ReadsItsDigits (days_of self.now) text.now }
    {
        let &[a, b, c, d, e, f] = text else {
            return None;
        };
        self.minute_at(two_digits(a, b)?, two_digits(c, d)?, two_digits(e, f)?)
    }

    /// The day of the month, `k` days after the base day.
    fn day_after(&self, k: u8) -> u8
        requires { k < 7 }
        ensures day { result ≡ day_after (days_of self.now) k }
        ensures small { result < 100 }
    {
        let day = self.base + k;
        if day <= self.month {
            day
        } else {
            day - self.month
        }
    }

    /// The six digits of a minute.
    pub fn write_time(&self, minute: Minute) -> [u8; 6]
        ensures value { result ≡ time_written (days_of self.now) (minute_of minute) }
        ensures back { time_read (days_of self.now) result ≡ Some (minute_of minute) }
    {
        let day = self.day_after((minute.value / 1440) as u8);
        let [a, b] = digits_of(day);
        let [c, d] = digits_of((minute.value % 1440 / 60) as u8);
        let [e, f] = digits_of((minute.value % 60) as u8);
        [a, b, c, d, e, f]
    }
}
