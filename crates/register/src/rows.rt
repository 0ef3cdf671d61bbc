ghost use Rattle.std.specs.Prelude.{◌≡◌, [], ◌∷◌, ◌++◌, IfOk, if◌then◌else◌, is_ok, length, nat_lt};
ghost use Rattle.std.specs.Option.{option_map};
ghost use Rattle.register.specs.Users.{number_of};
ghost use Rattle.register.specs.Keys.{is_spelt};
ghost use Rattle.register.specs.Tables.{first_with};

use crate::keys::CarrierCode;
use crate::user::User;
use std::alloc::{AllocError, Global};
use std::error::Error;
use std::fmt;
use std::marker::Model;

/// The most rows that a table has.
pub const MOST_ROWS: usize = 64;

/// A key with its user.
#[derive(Drop)]
pub struct Row<K> {
    pub(crate) key: K,
    pub(crate) user: User,
}

/// Up to 64 rows, for which there is room from the start. In clauses it is the list of them.
// Kept: a list that is searched, and no map: the first row with a key decides, a row whose key is there already takes a
// place too, and no memory is wanted after the start.
#[derive(Drop)]
pub struct Rows<K> {
    rows: Vec<Row<K>>,
}

impl<K> Model for Rows<K> {
    ghost use Rattle.std.specs.Prelude.{◌≤◌, List, vec_len, vec_capacity};
    ghost use Rattle.register.specs.declared.rows.Row.{Row};

    ghost Value = { List (Row K) };

    ghost view = { λ t. t.rows.items };

    ghost invariant = { λ t. (vec_len t.rows ≤ 64) × (64 ≤ vec_capacity t.rows) };
}

/// A table has 64 rows already.
#[derive(Clone, Copy, Debug, PartialEq, Eq)]
pub struct Full;

// Kept: by hand, since a derive of Display and Error promises nothing of what is printed.
impl fmt::Display for Full {
    ghost use Rattle.std.specs.Prelude.{Some, codes};

    ghost output = { λ _. Some (codes "no row left") };

    fn fmt<W: fmt::Write>(&self, f: &mut fmt::Formatter<W>) -> fmt::Result {
        f.write_str("no row left")
    }
}

impl Error for Full {}

impl<K: Copy + Eq> Rows<K> {
    /// No rows.
    pub fn new(heap: Global) -> Result<Self, AllocError>
        ensures { IfOk result (λ t. t ≡ []) }
    {
        let rows = Vec::with_capacity(heap, MOST_ROWS)?;
        Ok(Rows { rows })
    }

    /// Adds a row, unless there are 64.
    pub fn add(&mut self, key: K, user: User) -> Result<(), Full>
        ensures told { is_ok result ≡ nat_lt (length self.old) 64 }
        ensures rows { self.new ≡ (if is_ok result then (self.old ++ record { key = key; user = user } ∷ []) else self.old) }
    {
        if self.rows.len() == MOST_ROWS {
            return Err(Full);
        }
        self.rows.push_reserved(Row { key, user });
        Ok(())
    }

    /// The user in the first row with a key.
    pub fn user_for(&self, key: &K) -> Option<User>
        ensures { option_map number_of result ≡ first_with (λ k. K.eq k key.now) self.now }
    {
        self.rows
            .iter()
            .find(|row| row.key == *key)
            .map(|row| row.user)
    }
}

impl Rows<CarrierCode> {
    /// The user in the first row whose code is spelt so; a text that is no code is asked for too.
    // Kept: beside `user_for`, since a code made of the text first cost half as much again.
    pub fn user_spelt(&self, text: &[u8]) -> Option<User>
        ensures { option_map number_of result ≡ first_with (λ code. is_spelt code text.now) self.now }
    {
        self.rows
            .iter()
            .find(|row| row.key.letters.as_slice() == text)
            .map(|row| row.user)
    }
}
