ghost use Rattle.std.specs.Prelude.{◌≡◌, ◌<◌, IfSome};
ghost use Rattle.calendar.specs.Digits.{digit, two_digits, two_digits_of, number};

/// The value of a digit.
// Kept: the library's to_digit is of a char and gives a u32, so it would be converted twice.
fn digit_of(b: u8) -> Option<u8>
    ensures { result ≡ digit b }
{
    match b {
        b'0'..=b'9' => Some(b - b'0'),
        _ => None,
    }
}

/// The number that two bytes write.
pub(crate) fn two_digits(a: u8, b: u8) -> Option<u8>
    ensures value { result ≡ two_digits a b }
    ensures small { IfSome result (λ n. n < 100) }
{
    Some(10 * digit_of(a)? + digit_of(b)?)
}

/// The number that a text of two digits writes.
pub(crate) fn number_of(text: &[u8]) -> Option<u8>
    ensures { result ≡ number text.now }
{
    let &[a, b] = text else {
        return None;
    };
    two_digits(a, b)
}

/// The two digits of a number below 100.
pub(crate) fn digits_of(n: u8) -> [u8; 2]
    requires { n < 100 }
    ensures { result ≡ two_digits_of n }
{
    [b'0' + n / 10, b'0' + n % 10]
}
