ghost use Rattle.std.specs.Prelude.{◌≡◌, ℕ, List, Option};
ghost use Rattle.std.specs.Option.{option_map};
ghost use Rattle.register.specs.Users.{number_of};

use crate::user::User;

/// Which user a sender is, and which user a carrier code belongs to. A question changes nothing.
pub trait Register {
    /// What the register knows a sender by.
    type Sender;

    // the number of the user that a sender is, if it is one
    ghost owner: { Self → Self.Sender → Option ℕ };

    // the number of the user that the carrier with this code belongs to, if there is one
    ghost carrier: { Self → List ℕ → Option ℕ };

    /// The user that the sender is.
    fn user_of(&self, sender: &Self::Sender) -> Option<User>
        ensures { option_map number_of result ≡ owner self.now sender.now };

    /// The user that the carrier belongs to. The code may be any text: most belong to none.
    fn user_of_carrier(&self, code: &[u8]) -> Option<User>
        ensures { option_map number_of result ≡ carrier self.now code.now };
}
