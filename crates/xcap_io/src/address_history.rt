// Addresses that only contracts see. They occupy no memory, and the calls do nothing at run time.
ghost use Rattle.std.specs.Prelude.{◌≡◌, ℕ, List, [], ◌∷◌};
ghost use Rattle.std.specs.Borrow.{ftrue};

use std::marker::Model;

/// The addresses passed to a peer's `connect` or a port's `listen`, latest first, as contracts see
/// them.
#[derive(Drop)]
pub struct AddressHistory {
    pub ghost texts: { List (List ℕ) },
}

impl Model for AddressHistory {
    ghost also_owns = { λ _. ftrue };
}

impl AddressHistory {
    /// An empty history.
    pub fn new() -> AddressHistory
        ensures remembers_nothing { result.texts ≡ [] }
    {
        AddressHistory {}
    }

    /// Adds an address in front of the others.
    pub fn add(&mut self, _text: &[u8])
        ensures exact { self.new.texts ≡ _text.now ∷ self.old.texts }
    {}
}
