//! The XML declaration and the byte order mark, which may begin a document.
ghost use Rattle.std.specs.Prelude.{◌≡◌, chars, option_map, Ok};
ghost use Rattle.std.specs.Char.{is_ascii_alphabetic};
ghost use Rattle.xml_grammar.specs.TextReading.{first_char_is};
ghost use Rattle.xml_tokens.specs.readers.ReadResults.{IsSameResult};
ghost use Rattle.xml_markup.specs.Grammar.{is_supported_encoding};
ghost use Rattle.xml_markup.specs.readers.Markup.{letter_follows, read_version_number};
ghost use Rattle.xml_markup.specs.readers.Markup.{read_encoding_name, read_yes_or_no, read_version};
ghost use Rattle.xml_markup.specs.readers.Markup.{read_encoding, read_standalone};
ghost use Rattle.xml_markup.specs.readers.Markup.{read_optional_encoding};
ghost use Rattle.xml_markup.specs.readers.Markup.{read_optional_standalone, read_xml_declaration};
ghost use Rattle.xml_markup.specs.readers.Markup.{declaration_follows, read_declaration};
ghost use Rattle.xml_markup.specs.readers.Markup.{read_optional_declaration, read_optional_bom};

use xml_grammar::{split_first, starts_with_char};
use xml_tokens::{
    Class, FaultKind, ParseError, digits, equals, equals_ignoring_case, is_letter, is_space_next,
    letter, quote, required_spaces, rest_before, run, spaces, strip_word, word,
};

/// What follows a version number.
fn version_number(text: &str) -> Result<&str, ParseError<'_>>
    ensures reads_rule { IsSameResult (λ rest. (tt, chars rest.now)) result
        (read_version_number (chars text.now)) }
{
    let rest = word(text, &['1', '.'])?;
    let (_, rest) = digits(rest)?;
    Ok(rest)
}

/// Whether a text begins with a letter.
fn starts_with_letter(text: &str) -> bool
    ensures exact { result ≡ first_char_is is_ascii_alphabetic (chars text.now) }
{
    match split_first(text) {
        Some((first, _)) => is_letter(first),
        None => false,
    }
}

/// The name of an encoding, and what follows it.
fn encoding_name(text: &str) -> Result<(&str, &str), ParseError<'_>>
    ensures reads_rule { IsSameResult (λ x. (chars x.0.now, chars x.1.now)) result
        (read_encoding_name (chars text.now)) }
{
    if !starts_with_letter(text) {
        return Err(ParseError::Syntax(text));
    }
    Ok(run(text, Class::Encoding))
}

/// What follows `yes` or `no`.
fn yes_or_no(text: &str) -> Result<&str, ParseError<'_>>
    ensures reads_rule { IsSameResult (λ rest. (tt, chars rest.now)) result
        (read_yes_or_no (chars text.now)) }
{
    if starts_with_char(text, 'y') {
        return word(text, &['y', 'e', 's']);
    }
    word(text, &['n', 'o'])
}

/// What follows the version.
fn version(text: &str) -> Result<&str, ParseError<'_>>
    ensures reads_rule { IsSameResult (λ rest. (tt, chars rest.now)) result
        (read_version (chars text.now)) }
{
    let (_, rest) = required_spaces(text)?;
    let rest = word(rest, &['v', 'e', 'r', 's', 'i', 'o', 'n'])?;
    let (_, rest) = equals(rest)?;
    let (quote, rest) = quote(rest)?;
    let rest = version_number(rest)?;
    letter(rest, quote)
}

/// The declared encoding, and what follows it.
fn encoding(text: &str) -> Result<(&str, &str), ParseError<'_>>
    ensures reads_rule { IsSameResult (λ x. (chars x.0.now, chars x.1.now)) result
        (read_encoding (chars text.now)) }
{
    let (_, rest) = required_spaces(text)?;
    let rest = word(rest, &['e', 'n', 'c', 'o', 'd', 'i', 'n', 'g'])?;
    let (_, rest) = equals(rest)?;
    let (quote, rest) = quote(rest)?;
    let (name, rest) = encoding_name(rest)?;
    Ok((name, letter(rest, quote)?))
}

/// What follows the standalone declaration.
fn standalone(text: &str) -> Result<&str, ParseError<'_>>
    ensures reads_rule { IsSameResult (λ rest. (tt, chars rest.now)) result
        (read_standalone (chars text.now)) }
{
    let (_, rest) = required_spaces(text)?;
    let rest = word(rest, &['s', 't', 'a', 'n', 'd', 'a', 'l', 'o', 'n', 'e'])?;
    let (_, rest) = equals(rest)?;
    let (quote, rest) = quote(rest)?;
    let rest = yes_or_no(rest)?;
    letter(rest, quote)
}

/// Whether white space and this letter follow.
fn letter_follows(text: &str, letter: char) -> bool
    ensures exact { result ≡ letter_follows letter (chars text.now) }
{
    if !is_space_next(text) {
        return false;
    }
    let (_, rest) = spaces(text);
    starts_with_char(rest, letter)
}

/// The declared encoding, if there is one, and what follows it.
fn optional_encoding(text: &str) -> Result<(Option<&str>, &str), ParseError<'_>>
    ensures reads_rule { IsSameResult
        (λ x. (option_map (λ name. chars name.now) x.0, chars x.1.now)) result
        (read_optional_encoding (chars text.now)) }
{
    if !letter_follows(text, 'e') {
        return Ok((None, text));
    }
    let (name, rest) = encoding(text)?;
    Ok((Some(name), rest))
}

/// Whether there is a standalone declaration, and what follows it.
fn optional_standalone(text: &str) -> Result<(Option<()>, &str), ParseError<'_>>
    ensures reads_rule { IsSameResult (λ x. (x.0, chars x.1.now)) result
        (read_optional_standalone (chars text.now)) }
{
    if !letter_follows(text, 's') {
        return Ok((None, text));
    }
    let rest = standalone(text)?;
    Ok((Some(()), rest))
}

/// An XML declaration: the encoding that it names, if any, and what follows it.
fn xml_declaration(text: &str) -> Result<(Option<&str>, &str), ParseError<'_>>
    ensures reads_rule { IsSameResult
        (λ x. (option_map (λ name. chars name.now) x.0, chars x.1.now)) result
        (read_xml_declaration (chars text.now)) }
{
    let rest = word(text, &['<', '?', 'x', 'm', 'l'])?;
    let rest = version(rest)?;
    let (name, rest) = optional_encoding(rest)?;
    let (_, rest) = optional_standalone(rest)?;
    let (_, rest) = spaces(rest);
    Ok((name, word(rest, &['?', '>'])?))
}

/// Whether an encoding is read.
fn is_supported_encoding(name: &str) -> bool
    ensures exact { result ≡ is_supported_encoding (chars name.now) }
{
    if equals_ignoring_case(name, &['u', 't', 'f', '-', '8']) {
        return true;
    }
    equals_ignoring_case(name, &['u', 's', '-', 'a', 's', 'c', 'i', 'i'])
}

/// An XML declaration whose encoding is read, and what follows it.
fn declaration(text: &str) -> Result<(Option<&str>, &str), ParseError<'_>>
    ensures reads_rule { IsSameResult
        (λ x. (option_map (λ name. chars name.now) x.0, chars x.1.now)) result
        (read_declaration (chars text.now)) }
{
    let (name, rest) = xml_declaration(text)?;
    match name {
        Some(name) => {
            if !is_supported_encoding(name) {
                return Err(ParseError::Faulty(FaultKind::Encoded, rest_before(text, rest, 2)));
            }
            Ok((Some(name), rest))
        }
        None => Ok((None, rest)),
    }
}

/// Whether `<?xml` and white space follow.
fn declaration_follows(text: &str) -> bool
    ensures exact { result ≡ declaration_follows (chars text.now) }
{
    match strip_word(text, &['<', '?', 'x', 'm', 'l']) {
        Some(rest) => is_space_next(rest),
        None => false,
    }
}

/// What follows an XML declaration, which is optional.
///
/// # Errors
/// The stop of the rule, with the rest of the text there: `Encoded` for another encoding than UTF-8
/// and US-ASCII.
pub fn optional_declaration(text: &str) -> Result<&str, ParseError<'_>>
    ensures reads_rule { IsSameResult (λ rest. (tt, chars rest.now)) result
        (read_optional_declaration (chars text.now)) }
{
    if !declaration_follows(text) {
        return Ok(text);
    }
    let (_, rest) = declaration(text)?;
    Ok(rest)
}

/// What follows a byte order mark, which is optional.
pub fn skip_bom(text: &str) -> &str
    ensures reads_rule { read_optional_bom (chars text.now) ≡ Ok (tt, chars result.now) }
{
    match split_first(text) {
        Some((first, rest)) => {
            if first != '\u{FEFF}' {
                return text;
            }
            rest
        }
        None => text,
    }
}
