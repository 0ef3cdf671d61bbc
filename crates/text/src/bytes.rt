ghost use Rattle.std.specs.Prelude.{◌≡◌};
ghost use Rattle.text.specs.Bytes.{is_capital, is_digit, is_capital_or_digit, each};

// Kept: three functions, each the name of one chain; a closure parameter would be no plainer than the
// chain itself.

/// Whether every byte is a capital letter.
pub fn all_capitals(text: &[u8]) -> bool
    ensures { result ≡ each is_capital text.now }
{
    text.iter().all(|b| b.is_ascii_uppercase())
}

/// Whether every byte is a decimal digit.
pub fn all_digits(text: &[u8]) -> bool
    ensures { result ≡ each is_digit text.now }
{
    text.iter().all(|b| b.is_ascii_digit())
}

/// Whether every byte is a capital letter or a digit.
pub fn all_capitals_or_digits(text: &[u8]) -> bool
    ensures { result ≡ each is_capital_or_digit text.now }
{
    text.iter()
        .all(|b| b.is_ascii_uppercase() || b.is_ascii_digit())
}
