ghost use Rattle.std.specs.Prelude.{◌≡◌, ◌+◌, ◌≤◌, ◌++◌, length, take};
ghost use Rattle.std.specs.Option.{option_map};
ghost use Rattle.std.specs.Str.{bytes_eq};
ghost use Rattle.std.specs.Cmp.{on_equiv, on_per, partial_equiv_from_equiv};
ghost use Rattle.std.specs.Cmp.Lexicographic.{nat_list_eq_equiv};
ghost use Rattle.text.specs.Short.{text_of, shortened};

use crate::short::ShortText;

/// An array with a text written over it from a place on.
fn overwritten<const N: usize>(old: [u8; N], at: usize, text: &[u8]) -> [u8; N]
    requires { at + length text.now ≤ N }
    ensures { take (at + length text.now) result ≡ take at old.entry ++ text.now }
{
    let mut bytes = old;
    let whole = &mut bytes[..];
    whole[at..at + text.len()].copy_from_slice(text);
    bytes
}

impl<const N: usize> ShortText<N> {
    /// The text, where it is short enough.
    #[tactic(auto, using(crate::proofs::Scans::shortened_fits))]
    // Kept: an Option and no TryFrom: that it is too long is all that there is to say.
    pub fn new(text: &[u8]) -> Option<Self>
        ensures { option_map text_of result ≡ shortened N text.now }
    {
        if text.len() > N {
            return None;
        }
        Some(ShortText {
            bytes: overwritten([0; N], 0, text),
            len: text.len(),
        })
    }

    /// Two texts, one after the other.
    pub fn joined(front: &[u8], back: &[u8]) -> Self
        requires { length front.now + length back.now ≤ N }
        ensures { text_of result ≡ front.now ++ back.now }
    {
        let bytes = overwritten([0; N], 0, front);
        ShortText {
            bytes: overwritten(bytes, front.len(), back),
            len: front.len() + back.len(),
        }
    }

    pub fn as_bytes(&self) -> &[u8]
        ensures { result.now ≡ text_of self.now }
    {
        let whole = &self.bytes[..];
        &whole[0..self.len]
    }
}

// Kept: by hand, since a derive would also compare the bytes past the end of the text.
impl<const N: usize> PartialEq for ShortText<N> {
    ghost eq = { λ a b. bytes_eq (text_of a) (text_of b) };

    ghost laws = { on_per (λ a. text_of a) (partial_equiv_from_equiv nat_list_eq_equiv) };

    fn eq(&self, other: &Self) -> bool {
        self.as_bytes() == other.as_bytes()
    }
}

impl<const N: usize> Eq for ShortText<N> {
    ghost laws = { on_equiv (λ a. text_of a) nat_list_eq_equiv };
}
