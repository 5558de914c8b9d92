//! Characters of the names of encodings.
ghost use Rattle.std.specs.Prelude.{◌≡◌};
ghost use Rattle.std.specs.Char.{is_ascii_alphabetic};
ghost use Rattle.xml_tokens.specs.Tokens.{is_encoding_char};

use crate::digit_runs::is_digit;

/// Whether a character is an ASCII letter, with which the name of an encoding begins.
pub fn is_letter(c: char) -> bool
    ensures exact { result ≡ is_ascii_alphabetic c }
{
    matches!(c, 'A'..='Z' | 'a'..='z')
}

/// Whether the name of an encoding may have a character after its first letter.
pub fn is_encoding_char(c: char) -> bool
    ensures exact { result ≡ is_encoding_char c }
{
    is_letter(c) || is_digit(c) || matches!(c, '.' | '_' | '-')
}
