ghost use Rattle.std.specs.Prelude.{◌≡◌, true, length};
ghost use Rattle.text.specs.Bytes.{is_capital, each};

use std::error::Error;
use std::fmt;
use text::all_capitals;

/// A sender of the CDMNET: its IP number and its client tag.
#[derive(Clone, Copy, Debug, PartialEq, Eq)]
pub struct Client {
    pub ip: u32,
    pub tag: u32,
}

/// Exactly `N` capital letters.
#[derive(Clone, Copy, Debug, PartialEq, Eq)]
pub struct Capitals<const N: usize> {
    pub(crate) letters: [u8; N],
    ghost exact: { length letters ≡ N },
    ghost capitals: { each is_capital letters ≡ true },
}

/// A sender of the ARINC: its return address.
pub type Address = Capitals<7>;

/// The code of a carrier.
pub type CarrierCode = Capitals<3>;

/// A text is not exactly as many capital letters as are wanted.
#[derive(Clone, Copy, Debug, PartialEq, Eq)]
pub struct NotCapitals;

// Kept: by hand, since a derive of Display and Error promises nothing of what is printed.
impl fmt::Display for NotCapitals {
    ghost use Rattle.std.specs.Prelude.{Some, codes};

    ghost output = { λ _. Some (codes "not the right number of capital letters") };

    fn fmt<W: fmt::Write>(&self, f: &mut fmt::Formatter<W>) -> fmt::Result {
        f.write_str("not the right number of capital letters")
    }
}

impl Error for NotCapitals {}

/// The text, where it is `N` capital letters.
impl<const N: usize> TryFrom<&[u8]> for Capitals<N> {
    ghost use Rattle.std.specs.Prelude.{◌≡◌};
    ghost use Rattle.std.specs.Option.{option_map};
    ghost use Rattle.std.specs.Result.{result_ok};
    ghost use Rattle.std.specs.Bool.{then_some};
    ghost use Rattle.register.specs.Keys.{letters_of, are_capitals};

    type Error = NotCapitals;

    ghost try_from_gives = { λ text r. option_map letters_of (result_ok r) ≡ then_some (are_capitals N text.now) text.now };

    fn try_from(text: &[u8]) -> Result<Self, NotCapitals> {
        let letters = <[u8; N]>::try_from(text).map_err(|_| NotCapitals)?;
        if all_capitals(text) {
            Ok(Capitals { letters })
        } else {
            Err(NotCapitals)
        }
    }
}
