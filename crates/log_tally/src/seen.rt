//! A history that only contracts see.

ghost use Rattle.std.specs.Prelude.{◌≡◌, List, ℕ, [], ◌∷◌, ◌++◌};
ghost use Rattle.std.specs.Borrow.{ftrue};

use std::marker::{Model, PhantomData};

/// Bytes that came, first to last, as contracts see them. It takes no memory, and its methods do
/// nothing when the program runs.
#[derive(Drop)]
pub(crate) struct Seen<B> {
    of: PhantomData<B>,
    pub(crate) ghost items: { List B },
}

impl<B> Model for Seen<B> {
    ghost also_owns = { λ _. ftrue };
}

impl<B> Seen<B> {
    /// No byte.
    pub(crate) fn new() -> Seen<B>
        ensures { result.items ≡ [] }
    {
        Seen { of: PhantomData }
    }

    /// These bytes and one more.
    pub(crate) fn and(&self, byte: &B) -> Seen<B>
        ensures { result.items ≡ self.now.items ++ byte.now ∷ [] }
    {
        Seen { of: PhantomData }
    }
}
