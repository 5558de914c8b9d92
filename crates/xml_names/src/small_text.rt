//! Small texts, such as the parts of names. Contracts see their characters, as for a `Text`.
ghost use Rattle.std.specs.Prelude.{◌≡◌, ◌≤◌, ◌↔◌, [], length, take, IsTrue, IfOk, chars};
ghost use Rattle.std.specs.Prelude.{encode_utf8_all};
ghost use Rattle.std.specs.Str.{bytes_eq};

use crate::inline_text::InlineText;
use crate::small_text_storage::SmallTextStorage;
use std::alloc::{AllocError, Global};
use std::cmp::Ordering;
use std::marker::Model;

/// An immutable text. One of at most `N` bytes, which is at most 64, is stored inline, and a
/// longer one is allocated. Its size is `N` bytes and two more, rounded up to a multiple of
/// eight. Contracts see the list of its characters, as code points.
#[derive(Debug, Drop)]
pub struct SmallText<const N: usize> {
    bytes: SmallTextStorage<N>,
}

impl<const N: usize> Model for SmallText<N> {
    ghost use Rattle.std.specs.Prelude.{ℕ, List};
    ghost use Rattle.xml_names.specs.inner.SmallTextChars.{storage_chars};

    ghost Value = { List ℕ };

    ghost view = { λ w. storage_chars w.bytes };
}

impl<const N: usize> SmallText<N> {
    /// The empty text. Does not allocate.
    pub fn empty() -> SmallText<N>
        requires within_max { N ≤ 64 }
        ensures holds_no_characters { result ≡ [] }
    {
        SmallText {
            bytes: SmallTextStorage::Short(InlineText::new()),
        }
    }

    /// A copy of a text.
    ///
    /// # Errors
    /// `AllocError` when out of memory.
    pub fn from(alloc: Global, text: &str) -> Result<SmallText<N>, AllocError>
        requires within_max { N ≤ 64 }
        ensures same_chars { IfOk result (λ made. made ≡ chars text.now) }
    {
        let mut short = InlineText::new();
        if short.try_push_str(text) {
            return Ok(SmallText {
                bytes: SmallTextStorage::Short(short),
            });
        }
        let bytes = SmallTextStorage::long(alloc, text)?;
        Ok(SmallText { bytes })
    }

    /// A copy of a text that is a prefix of `bytes`. Where `bytes` has `N` or more, a short text
    /// costs the same whatever its length.
    ///
    /// # Errors
    /// `AllocError` when out of memory.
    #[inline(always)]
    pub fn from_front(alloc: Global, text: &str, bytes: &[u8]) -> Result<SmallText<N>, AllocError>
        requires within_max { N ≤ 64 }
        requires is_front { text.now ≡ take (length text.now) bytes.now }
        ensures same_chars { IfOk result (λ made. made ≡ chars text.now) }
    {
        if !SmallText::<N>::fits_front(text, bytes) {
            return SmallText::from(alloc, text);
        }
        Ok(SmallText::copy_front(text, bytes))
    }

    /// Whether `copy_front` can copy a text that is a prefix of `bytes`: it has at most `N` bytes,
    /// and `bytes` has `N` or more.
    #[inline(always)]
    pub fn fits_front(text: &str, bytes: &[u8]) -> bool
        ensures exact { IsTrue result ↔ (length text.now ≤ N) × (N ≤ length bytes.now) }
    {
        text.len() <= N && N <= bytes.len()
    }

    /// A copy of a text of at most `N` bytes that is a prefix of `bytes`, which has `N` or more:
    /// it costs the same whatever its length. Does not allocate.
    #[inline(always)]
    pub fn copy_front(text: &str, bytes: &[u8]) -> SmallText<N>
        requires within_max { N ≤ 64 }
        requires fits { (length text.now ≤ N) × (N ≤ length bytes.now) }
        requires is_front { text.now ≡ take (length text.now) bytes.now }
        ensures same_chars { result ≡ chars text.now }
    {
        SmallText {
            bytes: SmallTextStorage::Short(InlineText::copy_front(text, bytes)),
        }
    }

    /// The text, borrowed. Does not allocate.
    pub fn as_str(&self) -> &str
        ensures same_chars { chars result.now ≡ self.now }
        ensures utf8_bytes { result.now ≡ encode_utf8_all self.now }
    {
        self.bytes.as_str()
    }

    /// An equal text.
    ///
    /// # Errors
    /// `AllocError` when out of memory.
    pub fn copy(&self, alloc: Global) -> Result<SmallText<N>, AllocError>
        ensures equal_text { IfOk result (λ made. made ≡ self.now) }
    {
        let bytes = self.bytes.copy(alloc)?;
        Ok(SmallText { bytes })
    }

    /// Whether two small texts have the same characters. Does not allocate.
    pub fn same(&self, other: &SmallText<N>) -> bool
        ensures exact { IsTrue result ↔ (self.now ≡ other.now) }
    {
        self.as_str() == other.as_str()
    }

    /// Whether it has these characters. Does not allocate.
    pub fn is(&self, text: &str) -> bool
        ensures exact { result ≡ bytes_eq self.now (chars text.now) }
    {
        self.as_str() == text
    }

    /// Whether it has no character. Does not allocate.
    pub fn is_empty(&self) -> bool
        ensures exact { IsTrue result ↔ (self.now ≡ []) }
    {
        self.as_str().is_empty()
    }
}

impl<const N: usize> PartialEq for SmallText<N> {
    ghost use Rattle.std.specs.Str.{bytes_eq};
    ghost use Rattle.std.specs.Cmp.{partial_equiv_from_equiv};
    ghost use Rattle.std.specs.Cmp.Lexicographic.{nat_list_eq_equiv};

    ghost eq = { bytes_eq };

    ghost laws = { partial_equiv_from_equiv nat_list_eq_equiv };

    fn eq(&self, other: &SmallText<N>) -> bool {
        self.as_str() == other.as_str()
    }
}

impl<const N: usize> Eq for SmallText<N> {
    ghost use Rattle.std.specs.Cmp.Lexicographic.{nat_list_eq_equiv};

    ghost laws = { nat_list_eq_equiv };
}

/// The order of the characters, by code point.
impl<const N: usize> Ord for SmallText<N> {
    ghost use Rattle.std.proofs.Common.{refl};
    ghost use Rattle.std.specs.Ordering.{nat_cmp};
    ghost use Rattle.std.specs.Cmp.Lexicographic.{slice_cmp, nat_list_cmp_total, texts_ties};

    ghost cmp = { slice_cmp nat_cmp };

    ghost total = { nat_list_cmp_total };

    ghost matches_partial_cmp = { λ _ _. refl };

    ghost matches_eq = { texts_ties };

    fn cmp(&self, other: &SmallText<N>) -> Ordering {
        self.as_str().cmp(other.as_str())
    }
}

impl<const N: usize> PartialOrd for SmallText<N> {
    ghost use Rattle.std.specs.Prelude.{Some};
    ghost use Rattle.std.specs.Ordering.{nat_cmp};
    ghost use Rattle.std.specs.Cmp.Lexicographic.{slice_cmp, texts_po};

    ghost partial_cmp = { λ xs ys. Some (slice_cmp nat_cmp xs ys) };

    ghost laws = { texts_po };

    fn partial_cmp(&self, other: &SmallText<N>) -> Option<Ordering> {
        Some(self.cmp(other))
    }
}
