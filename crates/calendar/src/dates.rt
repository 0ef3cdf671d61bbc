ghost use Rattle.std.specs.Prelude.{◌≡◌, false, MatchOption, slice_index};
ghost use Rattle.calendar.specs.Dates.{is_date, is_day_and_time, month_length};

use crate::digits::two_digits;

/// The lengths of the twelve months, February having 29 days.
const MONTH_LENGTHS: [u8; 12] = [31, 29, 31, 30, 31, 30, 31, 31, 30, 31, 30, 31];

/// The length of a month by its number.
fn month_length(month: u8) -> Option<u8>
    ensures { MatchOption result (month_length month ≡ 0) (λ n. n ≡ month_length month) }
{
    match month {
        1..=12 => Some(MONTH_LENGTHS[month as usize - 1]),
        _ => None,
    }
}

/// Whether four numbers are a month, one of its days, an hour and a minute.
fn is_day_and_time(month: u8, day: u8, hh: u8, mm: u8) -> bool
    ensures { result ≡ is_day_and_time month day hh mm }
{
    month_length(month).is_some_and(|length| (1..=length).contains(&day)) && hh <= 23 && mm <= 59
}

/// The four numbers that eight digits write.
fn four_numbers(text: &[u8]) -> Option<(u8, u8, u8, u8)>
    ensures { MatchOption result (is_date text.now ≡ false) (λ n. is_date text.now ≡ is_day_and_time n.0 n.1 n.2 n.3) }
{
    let &[a, b, c, d, e, f, g, h] = text else {
        return None;
    };
    let month = two_digits(a, b)?;
    let day = two_digits(c, d)?;
    let hh = two_digits(e, f)?;
    let mm = two_digits(g, h)?;
    Some((month, day, hh, mm))
}

/// Whether a text is eight digits that are a month, one of its days, an hour and a minute.
pub fn is_date(text: &[u8]) -> bool
    ensures { result ≡ is_date text.now }
{
    four_numbers(text).is_some_and(|(month, day, hh, mm)| is_day_and_time(month, day, hh, mm))
}
