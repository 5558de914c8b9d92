// Owned bytes, which contracts see as a list of numbers.
ghost use Rattle.std.specs.Prelude.{◌≡◌, [], ◌∷◌, ◌++◌, length, IfOk, MatchResult};

use std::alloc::{AllocError, Global};
use std::hash::{Hash, Hasher};
use std::marker::Model;

/// An owned byte buffer.
#[derive(Drop)]
pub struct Bytes {
    inner: Vec<u8>,
}

impl Model for Bytes {
    ghost use Rattle.std.specs.Prelude.{ℕ, List};

    ghost Value = { List ℕ };

    ghost view = { λ b. b.inner.items };
}

impl Bytes {
    /// An empty buffer. Does not allocate.
    pub fn new(alloc: Global) -> Bytes
        ensures holds_no_bytes { result ≡ [] }
    {
        Bytes {
            inner: Vec::new(alloc),
        }
    }

    /// A copy of `bytes`.
    pub fn from(alloc: Global, bytes: &[u8]) -> Result<Bytes, AllocError>
        ensures same_bytes { IfOk result (λ copy. copy ≡ bytes.now) }
    {
        let inner = Vec::from_slice(alloc, bytes)?;
        Ok(Bytes { inner })
    }

    /// Wraps a vector of bytes. Does not allocate.
    pub fn from_vec(inner: Vec<u8>) -> Bytes
        ensures holds_bytes { result ≡ inner.items }
    {
        Bytes { inner }
    }

    /// Unwraps the vector. Does not allocate.
    pub fn into_vec(self) -> Vec<u8>
        ensures same_bytes { result.items ≡ self }
    {
        let Bytes { inner } = self;
        inner
    }

    /// Borrows the bytes.
    pub fn as_slice(&self) -> &[u8]
        ensures exact { result.now ≡ self.now }
    {
        self.inner.as_slice()
    }

    /// The number of bytes.
    pub fn len(&self) -> usize
        ensures exact { result ≡ length self.now }
    {
        self.inner.len()
    }

    /// A copy of this buffer.
    pub fn copy(&self, alloc: Global) -> Result<Bytes, AllocError>
        ensures equal_copy { IfOk result (λ copy. copy ≡ self.now) }
    {
        Bytes::from(alloc, self.as_slice())
    }

    /// Appends a byte. At `AllocError` the bytes are unchanged.
    pub fn push(&mut self, byte: u8) -> Result<(), AllocError>
        ensures appended_or_unchanged { MatchResult result (λ _. self.new ≡ self.old ++ byte ∷ [])
            (λ _. self.new ≡ self.old) }
    {
        self.inner.push(byte)?;
        Ok(())
    }

    /// Appends bytes. At `AllocError` the bytes are unchanged.
    pub fn extend(&mut self, bytes: &[u8]) -> Result<(), AllocError>
        ensures appended_or_unchanged { MatchResult result (λ _. self.new ≡ self.old ++ bytes.now)
            (λ _. self.new ≡ self.old) }
    {
        self.inner.extend_from_slice(bytes)
    }
}

impl PartialEq for Bytes {
    ghost use Rattle.std.specs.Str.{bytes_eq};
    ghost use Rattle.std.specs.Cmp.{partial_equiv_from_equiv};
    ghost use Rattle.std.specs.Cmp.Lexicographic.{nat_list_eq_equiv};

    ghost eq = { bytes_eq };

    ghost laws = { partial_equiv_from_equiv nat_list_eq_equiv };

    fn eq(&self, other: &Bytes) -> bool {
        self.as_slice() == other.as_slice()
    }
}

impl Eq for Bytes {
    ghost use Rattle.std.specs.Cmp.Lexicographic.{nat_list_eq_equiv};

    ghost laws = { nat_list_eq_equiv };
}

impl Hash for Bytes {
    ghost use Rattle.std.proofs.Common.{ap};
    ghost use Rattle.std.specs.Cmp.Lexicographic.{bytes_decides};
    ghost use Rattle.std.specs.Hash as fed;

    ghost hash_input = { λ bytes. fed.slice fed.u8 bytes };

    ghost respects_eq = { λ x y same.
        ap (λ bytes. fed.slice fed.u8 bytes) ((bytes_decides x y).0 same) };

    fn hash<H: Hasher>(&self, state: &mut H) {
        self.as_slice().hash(state);
    }
}
