//! Texts, which contracts see as their characters.
ghost use Rattle.std.specs.Prelude.{◌≡◌, ◌++◌, ◌∷◌, [], ◌↔◌, length, take, IsTrue, IfOk, OnOk};
ghost use Rattle.std.specs.Prelude.{OnErr, chars, encode_utf8_all, string_bytes};
ghost use Rattle.std.specs.Str.{bytes_eq};

use crate::text_storage::TextStorage;
use std::alloc::{AllocError, Global};
use std::cmp::Ordering;
use std::hash::{Hash, Hasher};
use std::marker::Model;

/// A text that owns its memory; one of a few bytes does not allocate. Contracts see the list of
/// its characters, as code points.
#[derive(Debug, Drop)]
pub struct Text {
    bytes: TextStorage,
}

impl Model for Text {
    ghost use Rattle.std.specs.Prelude.{ℕ, List, chars, IsUtf8};
    ghost use Rattle.xml_names.specs.inner.TextBytes.{storage_bytes};

    ghost Value = { List ℕ };

    ghost view = { λ t. chars (storage_bytes t.bytes) };

    ghost invariant = { λ t. ∥ IsUtf8 (storage_bytes t.bytes) ∥₁ };
}

impl Text {
    /// A copy of a text.
    ///
    /// # Errors
    /// `AllocError` when out of memory.
    pub fn from(alloc: Global, text: &str) -> Result<Text, AllocError>
        ensures same_chars { IfOk result (λ made. made ≡ chars text.now) }
    {
        let bytes = TextStorage::from(alloc, text)?;
        Ok(Text { bytes })
    }

    /// A copy of a text that is a prefix of `bytes`. Where `bytes` has thirty or more, a short
    /// text costs the same whatever its length.
    ///
    /// # Errors
    /// `AllocError` when out of memory.
    pub fn from_front(alloc: Global, text: &str, bytes: &[u8]) -> Result<Text, AllocError>
        requires { text.now ≡ take (length text.now) bytes.now }
        ensures same_chars { IfOk result (λ made. made ≡ chars text.now) }
    {
        let made = TextStorage::copy_front(alloc, text, bytes)?;
        Ok(Text { bytes: made })
    }

    /// The text that a string holds, which is not copied. Does not allocate.
    pub fn own(string: String) -> Text
        ensures exact { result ≡ chars (string_bytes string) }
    {
        Text {
            bytes: TextStorage::Long(string),
        }
    }

    /// The empty text, with capacity for `bytes` bytes.
    ///
    /// # Errors
    /// `AllocError` when out of memory.
    pub fn with_capacity(alloc: Global, bytes: usize) -> Result<Text, AllocError>
        ensures holds_no_characters { IfOk result (λ made. made ≡ []) }
    {
        let bytes = TextStorage::with_capacity(alloc, bytes)?;
        Ok(Text { bytes })
    }

    /// The text, borrowed. Does not allocate.
    pub fn as_str(&self) -> &str
        ensures same_chars { chars result.now ≡ self.now }
        ensures utf8_bytes { result.now ≡ encode_utf8_all self.now }
    {
        self.bytes.as_str()
    }

    /// An equal text.
    ///
    /// # Errors
    /// `AllocError` when out of memory.
    pub fn copy(&self, alloc: Global) -> Result<Text, AllocError>
        ensures equal_text { IfOk result (λ made. made ≡ self.now) }
    {
        let bytes = self.bytes.copy(alloc)?;
        Ok(Text { bytes })
    }

    /// Appends a text.
    ///
    /// # Errors
    /// `AllocError` when out of memory; the text is then unchanged.
    pub fn push_str(&mut self, text: &str) -> Result<(), AllocError>
        ensures appends_chars { OnOk result (self.new ≡ self.old ++ chars text.now) }
        ensures err_unchanged { OnErr result (self.new ≡ self.old) }
    {
        self.bytes.push_str(text)
    }

    /// Appends a character.
    ///
    /// # Errors
    /// `AllocError` when out of memory; the text is then unchanged.
    pub fn push(&mut self, c: char) -> Result<(), AllocError>
        ensures appended { OnOk result (self.new ≡ self.old ++ c ∷ []) }
        ensures err_unchanged { OnErr result (self.new ≡ self.old) }
    {
        self.bytes.push(c)
    }

    /// Whether two texts have the same characters. Does not allocate.
    pub fn same(&self, other: &Text) -> bool
        ensures exact { IsTrue result ↔ (self.now ≡ other.now) }
    {
        self.as_str() == other.as_str()
    }

    /// Whether it has these characters. Does not allocate.
    pub fn is(&self, text: &str) -> bool
        ensures exact { result ≡ bytes_eq self.now (chars text.now) }
    {
        self.as_str() == text
    }

    /// Whether it has no character. Does not allocate.
    pub fn is_empty(&self) -> bool
        ensures exact { IsTrue result ↔ (self.now ≡ []) }
    {
        self.as_str().is_empty()
    }

    /// How many characters it has. Does not allocate.
    pub fn count(&self) -> usize
        ensures exact { result ≡ length self.now }
    {
        self.as_str().chars().count()
    }
}

impl PartialEq for Text {
    ghost use Rattle.std.specs.Str.{bytes_eq};
    ghost use Rattle.std.specs.Cmp.{partial_equiv_from_equiv};
    ghost use Rattle.std.specs.Cmp.Lexicographic.{nat_list_eq_equiv};

    ghost eq = { bytes_eq };

    ghost laws = { partial_equiv_from_equiv nat_list_eq_equiv };

    fn eq(&self, other: &Text) -> bool {
        self.as_str() == other.as_str()
    }
}

impl Eq for Text {
    ghost use Rattle.std.specs.Cmp.Lexicographic.{nat_list_eq_equiv};

    ghost laws = { nat_list_eq_equiv };
}

/// The order of the characters, by code point.
impl Ord for Text {
    ghost use Rattle.std.proofs.Common.{refl};
    ghost use Rattle.std.specs.Ordering.{nat_cmp};
    ghost use Rattle.std.specs.Cmp.Lexicographic.{slice_cmp, nat_list_cmp_total, texts_ties};

    ghost cmp = { slice_cmp nat_cmp };

    ghost total = { nat_list_cmp_total };

    ghost matches_partial_cmp = { λ _ _. refl };

    ghost matches_eq = { texts_ties };

    fn cmp(&self, other: &Text) -> Ordering {
        self.as_str().cmp(other.as_str())
    }
}

impl PartialOrd for Text {
    ghost use Rattle.std.specs.Prelude.{Some};
    ghost use Rattle.std.specs.Ordering.{nat_cmp};
    ghost use Rattle.std.specs.Cmp.Lexicographic.{slice_cmp, texts_po};

    ghost partial_cmp = { λ xs ys. Some (slice_cmp nat_cmp xs ys) };

    ghost laws = { texts_po };

    fn partial_cmp(&self, other: &Text) -> Option<Ordering> {
        Some(self.cmp(other))
    }
}

impl Hash for Text {
    ghost use Rattle.std.proofs.Common.{ap};
    ghost use Rattle.std.specs.Prelude.{encode_utf8_all};
    ghost use Rattle.std.specs.Cmp.Lexicographic.{bytes_decides};
    ghost use Rattle.std.specs.Hash as fed;

    ghost hash_input = { λ cs. fed.str (encode_utf8_all cs) };

    ghost respects_eq = { λ x y h.
        ap (λ cs. fed.str (encode_utf8_all cs)) ((bytes_decides x y).0 h) };

    fn hash<H: Hasher>(&self, state: &mut H) {
        self.as_str().hash(state);
    }
}
