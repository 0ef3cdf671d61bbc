ghost use Rattle.std.specs.Prelude.{◌≤◌};

/// A text of at most `N` bytes, kept in place.
// Kept: an array with a length beside it, since there is no heap after the start, and the library's ArrayVec can't be copied. And a ghost field in
// place of a Model: a proof that holds a text reads its bound as `t.short`, which a Model, seen as the
// bytes alone, would make a clause of each method that lends one.
#[derive(Clone, Copy)]
pub struct ShortText<const N: usize> {
    pub(crate) bytes: [u8; N],
    pub(crate) len: usize,
    ghost short: { len ≤ N },
}
