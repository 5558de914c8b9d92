//! Markup between runs of characters: comments, CDATA sections and processing instructions.
ghost use Rattle.std.specs.Prelude.{◌≡◌, true, chars, IfOk, Ok};
ghost use Rattle.xml_grammar.specs.TextReading.{starts_with_word};
ghost use Rattle.xml_names.specs.Characters.{is_space};
ghost use Rattle.xml_names.specs.Comments.{is_comment};
ghost use Rattle.xml_tokens.specs.readers.ReadResults.{IsSameResult};
ghost use Rattle.xml_tokens.specs.Values.{normalize_line_ends};
ghost use Rattle.xml_markup.specs.Grammar.{is_pi_target};
ghost use Rattle.xml_markup.specs.readers.Markup.{misc_follows, less_follows, read_comment_text};
ghost use Rattle.xml_markup.specs.readers.Markup.{read_comment, read_cdata_section, read_pi_rest};
ghost use Rattle.xml_markup.specs.readers.Markup.{read_processing_instruction, read_misc};
ghost use Rattle.xml_markup.specs.readers.Markup.{read_prolog_misc};
ghost use Rattle.xml_markup.specs.readers.Markup.{read_prolog, read_epilog};

use std::alloc::Global;
use xml_grammar::{split_first, starts_with_char};
use xml_names::{Text, is_space};
use xml_tokens::{
    FaultKind, ParseError, equals_ignoring_case, letter, name, normalize_lines, spaces,
    starts_with_word, up_to, word,
};

/// The inside of a comment, and what follows the comment.
fn comment_text(text: &str) -> Result<(&str, &str), ParseError<'_>>
    ensures reads_rule { IsSameResult (λ x. (chars x.0.now, chars x.1.now)) result
        (read_comment_text (chars text.now)) }
    ensures keepable_comment { IfOk result
        (λ x. is_comment (normalize_line_ends (chars x.0.now)) ≡ true) }
{
    let rest = word(text, &['<', '!', '-', '-'])?;
    let (inside, rest) = up_to(rest, &['-', '-'])?;
    Ok((inside, letter(rest, '>')?))
}

/// A comment, and what follows it.
pub fn comment(alloc: Global, text: &str) -> Result<(Text, &str), ParseError<'_>>
    ensures reads_rule { IsSameResult (λ x. (x.0, chars x.1.now)) result
        (read_comment (chars text.now)) }
    ensures keepable_comment { IfOk result (λ x. is_comment x.0 ≡ true) }
{
    let (inside, rest) = comment_text(text)?;
    Ok((normalize_lines(alloc, inside)?, rest))
}

/// A CDATA section, and what follows it.
pub fn cdata_section(alloc: Global, text: &str) -> Result<(Text, &str), ParseError<'_>>
    ensures reads_rule { IsSameResult (λ x. (x.0, chars x.1.now)) result
        (read_cdata_section (chars text.now)) }
{
    let rest = word(text, &['<', '!', '[', 'C', 'D', 'A', 'T', 'A', '['])?;
    let (inside, rest) = up_to(rest, &[']', ']', '>'])?;
    Ok((normalize_lines(alloc, inside)?, rest))
}

/// Whether a name may be the target of an instruction.
fn is_pi_target(name: &str) -> bool
    ensures exact { result ≡ is_pi_target (chars name.now) }
{
    !equals_ignoring_case(name, &['x', 'm', 'l'])
}

/// What follows the rest of an instruction after its target.
fn skip_instruction(text: &str) -> Result<&str, ParseError<'_>>
    ensures reads_rule { IsSameResult (λ rest. (tt, chars rest.now)) result
        (read_pi_rest (chars text.now)) }
{
    match split_first(text) {
        Some((first, rest)) => {
            if !is_space(first) {
                return word(text, &['?', '>']);
            }
            let (_, rest) = up_to(rest, &['?', '>'])?;
            Ok(rest)
        }
        None => word(text, &['?', '>']),
    }
}

/// What follows a processing instruction.
pub fn processing_instruction(text: &str) -> Result<&str, ParseError<'_>>
    ensures reads_rule { IsSameResult (λ rest. (tt, chars rest.now)) result
        (read_processing_instruction (chars text.now)) }
{
    let rest = word(text, &['<', '?'])?;
    let (target, rest) = name(rest)?;
    if !is_pi_target(target) {
        return Err(ParseError::Syntax(rest));
    }
    skip_instruction(rest)
}

/// What follows a comment or an instruction.
fn misc(text: &str) -> Result<&str, ParseError<'_>>
    ensures reads_rule { IsSameResult (λ rest. (tt, chars rest.now)) result
        (read_misc (chars text.now)) }
{
    if starts_with_word(text, &['<', '!']) {
        let (_, rest) = comment_text(text)?;
        return Ok(rest);
    }
    processing_instruction(text)
}

/// Whether a comment or an instruction follows.
fn misc_follows(text: &str) -> bool
    ensures exact { result ≡ misc_follows (chars text.now) }
{
    if starts_with_word(text, &['<', '!']) {
        return true;
    }
    starts_with_word(text, &['<', '?'])
}

/// What follows a comment or an instruction before the root element, where no document type is
/// allowed.
fn prolog_misc(text: &str) -> Result<&str, ParseError<'_>>
    ensures reads_rule { IsSameResult (λ rest. (tt, chars rest.now)) result
        (read_prolog_misc (chars text.now)) }
{
    if starts_with_word(text, &['<', '!', 'D', 'O', 'C', 'T', 'Y', 'P', 'E']) {
        return Err(ParseError::Faulty(FaultKind::Doctyped, text));
    }
    misc(text)
}

/// What follows white space, comments and instructions before the root element.
pub fn prolog(text: &str) -> Result<&str, ParseError<'_>>
    ensures reads_rule { IsSameResult (λ rest. (tt, chars rest.now)) result
        (read_prolog (chars text.now)) }
{
    let (_, start) = spaces(text);
    let mut rest = start;
    for _ in 0..start.len() {
        if !misc_follows(rest) {
            break;
        }
        let after = prolog_misc(rest)?;
        let (_, after) = spaces(after);
        rest = after;
    }
    Ok(rest)
}

/// Whether a `<` follows: after the root element only a comment or an instruction can begin with
/// it.
fn less_follows(text: &str) -> bool
    ensures exact { result ≡ less_follows (chars text.now) }
{
    starts_with_char(text, '<')
}

/// What follows white space, comments and instructions after the root element.
pub fn epilog(text: &str) -> Result<&str, ParseError<'_>>
    ensures reads_rule { IsSameResult (λ rest. (tt, chars rest.now)) result
        (read_epilog (chars text.now)) }
{
    let (_, start) = spaces(text);
    let mut rest = start;
    for _ in 0..start.len() {
        if !less_follows(rest) {
            break;
        }
        let after = misc(rest)?;
        let (_, after) = spaces(after);
        rest = after;
    }
    Ok(rest)
}
