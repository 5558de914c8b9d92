//! Runs of digits.
ghost use Rattle.std.specs.Prelude.{◌≡◌, chars};
ghost use Rattle.std.specs.Char.{is_ascii_digit};
ghost use Rattle.xml_grammar.specs.TextReading.{first_char_is, read_one_or_more};
ghost use Rattle.xml_tokens.specs.readers.ReadResults.{IsSameResult};

use crate::character_classes::{Class, run};
use crate::parse_error::ParseError;
use xml_grammar::split_first;

/// Whether a character is a digit.
pub fn is_digit(c: char) -> bool
    ensures exact { result ≡ is_ascii_digit c }
{
    matches!(c, '0'..='9')
}

/// Whether a text begins with a digit.
fn starts_with_digit(text: &str) -> bool
    ensures exact { result ≡ first_char_is is_ascii_digit (chars text.now) }
{
    match split_first(text) {
        Some((first, _)) => is_digit(first),
        None => false,
    }
}

/// One or more digits, and what follows them.
///
/// # Errors
/// The stop of the rule, with the rest of the text there.
pub fn digits(text: &str) -> Result<(&str, &str), ParseError<'_>>
    ensures reads_some_digits { IsSameResult (λ x. (chars x.0.now, chars x.1.now)) result
        (read_one_or_more is_ascii_digit (chars text.now)) }
{
    if !starts_with_digit(text) {
        return Err(ParseError::Syntax(text));
    }
    Ok(run(text, Class::Digit))
}
