ghost use Rattle.std.specs.Prelude.{◌≡◌, ◌≤◌, ℕ, Bool, true, List, length, ⊤};
ghost use Rattle.text.specs.Short.{text_of};
ghost use Rattle.text.specs.Bytes.{is_capital_or_digit, each};

use calendar::Days;
use std::alloc::AllocError;
use std::marker::PhantomData;
use text::ShortText;

/// A kind of elements whose slot names are the element's name, a point, a time and a letter.
pub trait Kind {
    /// The form of its elements' names.
    ghost is_name: { List ℕ → Bool };

    /// The word for the last column but one of a slot list.
    ghost word: { List ℕ };

    /// Whether the element with the first text as its name serves the airport that the second names.
    ghost serves: { List ℕ → List ℕ → Bool };

    fn is_name(text: &[u8]) -> bool
        ensures { result ≡ is_name text.now };

    fn column_word() -> &'static [u8]
        ensures { result.now ≡ word };

    fn serves(name: &[u8], airport: &[u8]) -> bool
        ensures { result ≡ serves name.now airport.now };

    /// Names are short, and made of capital letters and digits; and so is the word short.
    ghost short_name: { (t : List ℕ) → is_name t ≡ true → length t ≤ 6 };

    ghost letters: { (t : List ℕ) → is_name t ≡ true → each is_capital_or_digit t ≡ true };

    ghost short_word: { length word ≤ 6 };
}

/// An element of a kind: its name, and the days that it lies on.
pub struct Named<K: Kind> {
    pub(crate) name: ShortText<6>,
    pub(crate) days: Days,
    pub(crate) kind: PhantomData<K>,
    ghost form: { K.is_name (text_of name) ≡ true },
}

// Kept: by hand; tried as derive_where(Clone, Copy), which is refused over a ghost field.
impl<K: Kind> Clone for Named<K> {
    ghost is_clone = { λ x y. y ≡ x };

    ghost is_infallible = { λ _. ⊤ };

    fn clone(&self) -> Result<Named<K>, AllocError> {
        Ok(*self)
    }
}

impl<K: Kind> Copy for Named<K> {}
