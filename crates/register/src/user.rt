ghost use Rattle.std.specs.Prelude.{◌≡◌, ◌<◌};

use std::error::Error;
use std::fmt;
use std::marker::Model;

/// A user, by its number from 0 to 15. In clauses it is that number.
#[derive(Clone, Copy, Debug, PartialEq, Eq)]
pub struct User {
    pub(crate) number: u8,
}

impl Model for User {
    ghost use Rattle.std.specs.Prelude.{ℕ, ◌<◌};

    ghost Value = { ℕ };

    ghost view = { λ u. u.number };

    ghost invariant = { λ u. u.number < 16 };

    ghost inverse = { λ n. record { number = n } };
}

/// A user's number is below 16.
#[derive(Clone, Copy, Debug, PartialEq, Eq)]
pub struct NoUser;

// Kept: by hand, since a derive of Display and Error promises nothing of what is printed.
impl fmt::Display for NoUser {
    ghost use Rattle.std.specs.Prelude.{Some, codes};

    ghost output = { λ _. Some (codes "no user") };

    fn fmt<W: fmt::Write>(&self, f: &mut fmt::Formatter<W>) -> fmt::Result {
        f.write_str("no user")
    }
}

impl Error for NoUser {}

impl User {
    /// The user's number, below 16.
    pub fn number(self) -> u8
        ensures number { result ≡ self }
        ensures below { result < 16 }
    {
        self.number
    }
}

/// The user with a number, where it is below 16.
impl TryFrom<u8> for User {
    ghost use Rattle.std.specs.Prelude.{◌≡◌, nat_lt};
    ghost use Rattle.std.specs.Option.{option_map};
    ghost use Rattle.std.specs.Result.{result_ok};
    ghost use Rattle.std.specs.Bool.{then_some};
    ghost use Rattle.register.specs.Users.{number_of};

    type Error = NoUser;

    ghost try_from_gives = { λ number r. option_map number_of (result_ok r) ≡ then_some (nat_lt number 16) number };

    fn try_from(number: u8) -> Result<User, NoUser> {
        if number < 16 {
            Ok(User { number })
        } else {
            Err(NoUser)
        }
    }
}
