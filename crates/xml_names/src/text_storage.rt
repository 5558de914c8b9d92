//! The bytes of a text: a few are stored inline, more are allocated.
ghost use Rattle.std.specs.Prelude.{◌≡◌, ◌++◌, length, take, encode_utf8, string_bytes, [], IfOk};
ghost use Rattle.std.specs.Prelude.{OnOk, OnErr};
ghost use Rattle.xml_names.specs.inner.TextBytes.{storage_bytes};

use crate::inline_text::InlineText;
use std::alloc::{AllocError, Global};

// The greatest number of bytes stored inline: most values, addresses and white space of a contact
// list are no longer.
const MAX_INLINE: usize = 30;

/// The bytes of a text, which are UTF-8.
#[derive(Debug, Drop)]
pub(crate) enum TextStorage {
    Short(Global, InlineText<MAX_INLINE>),
    Long(String),
}

impl TextStorage {
    /// No bytes, with capacity for `bytes` of them.
    pub(crate) fn with_capacity(alloc: Global, bytes: usize) -> Result<TextStorage, AllocError>
        ensures holds_no_bytes { IfOk result (λ made. storage_bytes made ≡ []) }
    {
        if bytes <= MAX_INLINE {
            return Ok(TextStorage::Short(alloc, InlineText::new()));
        }
        Ok(TextStorage::Long(String::with_capacity(alloc, bytes)?))
    }

    /// A copy of a text's bytes.
    pub(crate) fn from(alloc: Global, text: &str) -> Result<TextStorage, AllocError>
        ensures same_bytes { IfOk result (λ made. storage_bytes made ≡ text.now) }
    {
        let mut short = InlineText::new();
        if short.try_push_str(text) {
            return Ok(TextStorage::Short(alloc, short));
        }
        Ok(TextStorage::Long(String::from_str(alloc, text)?))
    }

    /// A copy of a text's bytes, which are a prefix of `bytes`.
    pub(crate) fn copy_front(
        alloc: Global,
        text: &str,
        bytes: &[u8],
    ) -> Result<TextStorage, AllocError>
        requires { text.now ≡ take (length text.now) bytes.now }
        ensures same_bytes { IfOk result (λ made. storage_bytes made ≡ text.now) }
    {
        if text.len() > MAX_INLINE {
            return TextStorage::from(alloc, text);
        }
        if bytes.len() < MAX_INLINE {
            return TextStorage::from(alloc, text);
        }
        Ok(TextStorage::Short(alloc, InlineText::copy_front(text, bytes)))
    }

    /// A copy of these bytes.
    pub(crate) fn copy(&self, alloc: Global) -> Result<TextStorage, AllocError>
        ensures same_bytes { IfOk result (λ made. storage_bytes made ≡ storage_bytes self.now) }
    {
        match self {
            TextStorage::Short(_, short) => Ok(TextStorage::Short(alloc, short.copy())),
            TextStorage::Long(string) => TextStorage::from(alloc, string.as_str()),
        }
    }

    /// The text, borrowed.
    pub(crate) fn as_str(&self) -> &str
        ensures exact { result.now ≡ storage_bytes self.now }
    {
        match self {
            TextStorage::Short(_, short) => short.as_str(),
            TextStorage::Long(string) => string.as_str(),
        }
    }

    /// Appends a text's bytes.
    pub(crate) fn push_str(&mut self, text: &str) -> Result<(), AllocError>
        ensures appends_chars { OnOk result
            (storage_bytes self.new ≡ storage_bytes self.old ++ text.now) }
        ensures err_unchanged { OnErr result (storage_bytes self.new ≡ storage_bytes self.old) }
    {
        match self {
            TextStorage::Long(string) => string.push_str(text),
            TextStorage::Short(alloc, short) => {
                if short.try_push_str(text) {
                    return Ok(());
                }
                let long = concat(*alloc, short.as_str(), text)?;
                *self = TextStorage::Long(long);
                Ok(())
            }
        }
    }

    /// Appends a character's bytes.
    pub(crate) fn push(&mut self, c: char) -> Result<(), AllocError>
        ensures appended { OnOk result
            (storage_bytes self.new ≡ storage_bytes self.old ++ encode_utf8 c) }
        ensures err_unchanged { OnErr result (storage_bytes self.new ≡ storage_bytes self.old) }
    {
        match self {
            TextStorage::Long(string) => string.push(c),
            TextStorage::Short(_, _) => {
                let mut bytes = [0; 4];
                self.push_str(c.encode_utf8(&mut bytes))
            }
        }
    }
}

// Two texts concatenated.
fn concat(alloc: Global, front: &str, back: &str) -> Result<String, AllocError>
    ensures ok { IfOk result (λ string. string_bytes string ≡ front.now ++ back.now) }
{
    let mut string = String::with_capacity(alloc, front.len().saturating_add(back.len()))?;
    string.push_str(front)?;
    string.push_str(back)?;
    Ok(string)
}
