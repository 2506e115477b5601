//! Which names files were asked for, for contracts alone.
ghost use Rattle.std.specs.Prelude.{◌≡◌, ℕ, List, [], ◌∷◌, ◌++◌};
ghost use Rattle.std.specs.Borrow.{ftrue};

use std::marker::Model;

/// The names that files were asked for, in order. Nothing of it is there as the program runs; it
/// serves whoever writes `Files` of their own, beside the fields that these have.
#[derive(Drop)]
pub struct AskedNames {
    ghost names: { List (List ℕ) },
}

impl Model for AskedNames {
    ghost also_owns = { λ _. ftrue };
}

impl AskedNames {
    /// No name was asked for yet.
    pub fn new() -> AskedNames
        ensures { result.names ≡ [] }
    {
        AskedNames {}
    }

    /// This name was asked for too.
    pub fn with_name(&self, _name: &[u8]) -> AskedNames
        ensures { result.names ≡ self.now.names ++ _name.now ∷ [] }
    {
        AskedNames {}
    }
}
