//! Short texts, stored inline.
ghost use Rattle.std.specs.Prelude.{◌≡◌, ◌++◌, ◌≤◌, ◌+◌, ◌↔◌, [], length, take, IsTrue, IsFalse};

use std::marker::Model;

/// A text of at most `N` bytes, stored inline. Contracts see its bytes.
#[derive(Debug, Drop)]
pub(crate) struct InlineText<const N: usize> {
    len: u8,
    // The text, then padding.
    bytes: [u8; N],
}

impl<const N: usize> Model for InlineText<N> {
    ghost use Rattle.std.specs.Prelude.{ℕ, List, ◌≤◌, take, IsUtf8};

    ghost Value = { List ℕ };

    ghost view = { λ s. take s.len s.bytes };

    ghost invariant = { λ s. (s.len ≤ N) × (N ≤ 64) × ∥ IsUtf8 (take s.len s.bytes) ∥₁ };
}

impl<const N: usize> InlineText<N> {
    /// The empty text.
    pub(crate) fn new() -> InlineText<N>
        requires within_max { N ≤ 64 }
        ensures has_no_bytes { result ≡ [] }
    {
        InlineText {
            bytes: [0; N],
            len: 0,
        }
    }

    /// An equal text.
    pub(crate) fn copy(&self) -> InlineText<N>
        ensures equal_text { result ≡ self.now }
    {
        InlineText {
            bytes: self.bytes,
            len: self.len,
        }
    }

    /// A copy of a short text that is a prefix of `bytes`, which has `N` or more: `N` bytes are
    /// copied at once.
    pub(crate) fn copy_front(text: &str, bytes: &[u8]) -> InlineText<N>
        requires within_max { N ≤ 64 }
        requires fits { length text.now ≤ N }
        requires long_enough { N ≤ length bytes.now }
        requires is_front { text.now ≡ take (length text.now) bytes.now }
        ensures same_bytes { result ≡ text.now }
    {
        let mut copied = [0u8; N];
        copied.copy_from_slice(&bytes[..N]);
        InlineText {
            bytes: copied,
            len: text.len() as u8,
        }
    }

    /// The text, borrowed.
    pub(crate) fn as_str(&self) -> &str
        ensures exact { result.now ≡ self.now }
    {
        let len = self.len as usize;
        // These bytes are UTF-8, as each inline text's are.
        unsafe { str::from_utf8_unchecked(&self.bytes[..len]) }
    }

    /// Appends a text if its bytes fit; returns whether they do.
    pub(crate) fn try_push_str(&mut self, text: &str) -> bool
        ensures adds_bytes { IsTrue result → self.new ≡ self.old ++ text.now }
        ensures err_unchanged { IsFalse result → self.new ≡ self.old }
        ensures true_iff_fits { IsTrue result ↔ (length self.old + length text.now ≤ N) }
    {
        let len = self.len as usize;
        if text.len() > N - len {
            return false;
        }
        let end = len + text.len();
        let all = &mut self.bytes[..];
        all[len..end].copy_from_slice(text.as_bytes());
        self.len = end as u8;
        true
    }
}
