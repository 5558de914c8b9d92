//! A text that is being printed. Contracts see its characters.
ghost use Rattle.std.specs.Prelude.{◌≡◌, ◌++◌, ◌∷◌, [], OnOk, chars, encode_utf8, encode_utf8_all};
ghost use Rattle.std.specs.Prelude.{string_bytes};

use std::alloc::{AllocError, Global};
use std::marker::Model;
use xcap_io::Bytes;

/// The text printed so far. Contracts see the list of its characters.
#[derive(Drop)]
pub struct Output {
    text: String,
}

impl Model for Output {
    ghost use Rattle.std.specs.Prelude.{ℕ, List, chars, string_bytes};

    ghost Value = { List ℕ };

    ghost view = { λ o. chars (string_bytes o.text) };
}

impl Output {
    /// The empty output. Does not allocate.
    pub fn new(alloc: Global) -> Output
        ensures holds_no_characters { result ≡ [] }
    {
        Output {
            text: String::new(alloc),
        }
    }

    /// Appends a text.
    #[inline(always)]
    pub fn push_str(&mut self, text: &str) -> Result<(), AllocError>
        ensures appends_chars { OnOk result (self.new ≡ self.old ++ chars text.now) }
    {
        push_bytes(&mut self.text, text)
    }

    /// Appends a character.
    #[inline(always)]
    pub fn push(&mut self, c: char) -> Result<(), AllocError>
        ensures appended { OnOk result (self.new ≡ self.old ++ c ∷ []) }
    {
        push_encoded(&mut self.text, c)
    }

    /// All of its bytes, in UTF-8. Does not allocate.
    pub fn into_bytes(self) -> Bytes
        ensures utf8_bytes { result ≡ encode_utf8_all self }
    {
        let Output { text } = self;
        owned_bytes(text)
    }
}

fn push_bytes(string: &mut String, text: &str) -> Result<(), AllocError>
    ensures adds_bytes { OnOk result
        (string_bytes string.new ≡ string_bytes string.old ++ text.now) }
{
    string.push_str(text)
}

#[inline(always)]
fn push_encoded(string: &mut String, c: char) -> Result<(), AllocError>
    ensures appends_bytes { OnOk result
        (string_bytes string.new ≡ string_bytes string.old ++ encode_utf8 c) }
{
    string.push(c)
}

fn owned_bytes(string: String) -> Bytes
    ensures holds_bytes { result ≡ string_bytes string }
{
    Bytes::from_vec(string.into_bytes())
}
