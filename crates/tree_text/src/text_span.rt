//! The number of characters in a part of a text.
ghost use Rattle.std.specs.Prelude.{◌≡◌, ◌-◌, chars, length};
ghost use Rattle.xml_grammar.specs.readers.Suffixes.{EndsWith};

use std::marker::Model;
use xml_grammar::{count, text_before};

/// How many characters a text has, counted on demand, which is rare. Contracts see the number.
#[derive(Drop)]
pub struct Size<'a> {
    text: &'a str,
}

impl<'a> Model for Size<'a> {
    ghost use Rattle.std.specs.Prelude.{ℕ, chars, length};

    ghost Value = { ℕ };

    ghost view = { λ s. length (chars s.text.now) };
}

impl<'a> Size<'a> {
    /// The size of the part of a text before this rest of it.
    #[inline(always)]
    pub fn of_text_before(text: &'a str, rest: &str) -> Size<'a>
        requires { EndsWith (chars text.now) (chars rest.now) }
        ensures exact { result ≡ length (chars text.now) - length (chars rest.now) }
    {
        Size {
            text: text_before(text, rest),
        }
    }

    /// The number.
    pub fn count(&self) -> usize
        ensures exact { result ≡ self.now }
    {
        count(self.text)
    }
}
