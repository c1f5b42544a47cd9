// Names of which contracts alone speak.
ghost use Rattle.std.specs.Prelude.{◌≡◌, ℕ, List, [], ◌∷◌, ◌++◌};
ghost use Rattle.std.specs.Borrow.{ftrue};

use std::marker::Model;

/// Names, one behind the other, as a shelf was asked for them. Each is the bytes of a text.
///
/// They stand in contracts alone, which read them as `names`: they take no bytes, and `with` does
/// nothing at run time.
#[derive(Drop)]
pub struct Names {
    pub ghost names: { List (List ℕ) },
}

impl Model for Names {
    ghost also_owns = { λ _. ftrue };
}

impl Names {
    /// No names.
    pub fn new() -> Names
        ensures { result.names ≡ [] }
    {
        Names {}
    }

    /// These names and one behind them.
    pub fn with(&self, _name: &[u8]) -> Names
        ensures { result.names ≡ self.now.names ++ _name.now ∷ [] }
    {
        Names {}
    }
}
