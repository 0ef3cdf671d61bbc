ghost use Rattle.std.specs.Prelude.{IfOk, is_ok};
ghost use Rattle.register.specs.Users.{number_of};
ghost use Rattle.register.specs.Keys.{is_spelt};
ghost use Rattle.register.specs.Known.{Blank, Offered, Unchanged};
ghost use Rattle.register.specs.Registers.{senders_of, carriers_of};

use crate::keys::{Address, CarrierCode, Client};
use crate::meaning::Register;
use crate::rows::{Full, Rows};
use crate::user::User;
use std::alloc::{AllocError, Global};

/// A register that knows up to 64 senders by keys of one kind, and up to 64 carriers by their codes.
#[derive(Drop)]
pub struct UserRegister<S> {
    senders: Rows<S>,
    carriers: Rows<CarrierCode>,
}

/// The register of the CDMNET, whose senders are clients.
pub type CdmnetRegister = UserRegister<Client>;

/// The register of the ARINC, whose senders are return addresses.
pub type ArincRegister = UserRegister<Address>;

impl<S: Copy + Eq> UserRegister<S> {
    /// A register that knows nobody.
    pub fn new(heap: Global) -> Result<Self, AllocError>
        ensures { IfOk result (λ t. Blank (senders_of S.eq t) × Blank (carriers_of t)) }
    {
        let senders = Rows::new(heap)?;
        let carriers = Rows::new(heap)?;
        Ok(UserRegister { senders, carriers })
    }

    /// Adds a row for a sender behind those there are, if there is room: 64 rows fill the table.
    pub fn add_sender(&mut self, sender: S, user: User) -> Result<(), Full>
        ensures senders { Offered (is_ok result) (S.eq sender) (number_of user) (senders_of S.eq self.old) (senders_of S.eq self.new) }
        ensures carriers { Unchanged (carriers_of self.old) (carriers_of self.new) }
    {
        self.senders.add(sender, user)
    }

    /// Adds a row for a carrier behind those there are, if there is room: 64 rows fill the table.
    pub fn add_carrier(&mut self, code: CarrierCode, user: User) -> Result<(), Full>
        ensures carriers { Offered (is_ok result) (is_spelt code) (number_of user) (carriers_of self.old) (carriers_of self.new) }
        ensures senders { Unchanged (senders_of S.eq self.old) (senders_of S.eq self.new) }
    {
        self.carriers.add(code, user)
    }
}

impl<S: Copy + Eq> Register for UserRegister<S> {
    type Sender = S;

    ghost owner = { λ t sender. (senders_of S.eq t).says sender };

    ghost carrier = { λ t code. (carriers_of t).says code };

    fn user_of(&self, sender: &S) -> Option<User> {
        self.senders.user_for(sender)
    }

    fn user_of_carrier(&self, code: &[u8]) -> Option<User> {
        self.carriers.user_spelt(code)
    }
}
