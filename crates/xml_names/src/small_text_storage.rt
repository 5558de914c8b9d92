//! How a small text is stored: a few bytes inline, more in a block of its own.
ghost use Rattle.std.specs.Prelude.{◌≡◌, chars, IfOk};
ghost use Rattle.xml_names.specs.inner.SmallTextChars.{storage_chars};

use crate::inline_text::InlineText;
use crate::text::Text;
use std::alloc::{AllocError, Global};

/// The characters of a small text. A long one is behind a `Box`, so that all values are small.
#[derive(Debug, Drop)]
pub(crate) enum SmallTextStorage<const N: usize> {
    Short(InlineText<N>),
    Long(Box<Text>),
}

impl<const N: usize> SmallTextStorage<N> {
    /// A copy of a text in a block of its own. Few texts need it.
    #[inline(never)]
    pub(crate) fn long(alloc: Global, text: &str) -> Result<SmallTextStorage<N>, AllocError>
        ensures same_chars { IfOk result (λ made. storage_chars made ≡ chars text.now) }
    {
        let text = Text::from(alloc, text)?;
        let long = Box::new(alloc, text)?;
        Ok(SmallTextStorage::Long(long))
    }

    /// A copy of these characters.
    pub(crate) fn copy(&self, alloc: Global) -> Result<SmallTextStorage<N>, AllocError>
        ensures same_chars { IfOk result (λ made. storage_chars made ≡ storage_chars self.now) }
    {
        match self {
            SmallTextStorage::Short(text) => Ok(SmallTextStorage::Short(text.copy())),
            SmallTextStorage::Long(text) => SmallTextStorage::long(alloc, text.as_str()),
        }
    }

    /// The text, borrowed.
    pub(crate) fn as_str(&self) -> &str
        ensures exact { chars result.now ≡ storage_chars self.now }
    {
        match self {
            SmallTextStorage::Short(text) => text.as_str(),
            SmallTextStorage::Long(text) => text.as_str(),
        }
    }
}
