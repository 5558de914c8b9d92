//! Reading documents, fragments and bodies.
ghost use Rattle.std.specs.Prelude.{◌≡◌, ◌+◌, ◌≤◌, length, [], IfOk};
ghost use Rattle.std.specs.Str.{chars};
ghost use Rattle.xml_grammar.specs.readers.RuleReaders.{read_whole_text};
ghost use Rattle.xml_tree.specs.declared.scope.TheConstants.{SCOPE_LIMIT};
ghost use Rattle.xml_tree.specs.Proper.{IsProperTree};
ghost use Rattle.xml_tree.specs.Tree.{height};
ghost use Rattle.tree_text.specs.Faults.{IsTextResult};
ghost use Rattle.xml_tokens.specs.readers.ReadResults.{IsSameResult, IsSameWholeResult};
ghost use Rattle.xml_names.specs.ReadErrors.{ResultSatisfies};
ghost use Rattle.tree_text.specs.readers.Texts.{read_element, read_text};
ghost use Rattle.tree_text.specs.readers.WholeTexts.{IsErrorOfStop, read_document_text};

use crate::bindings::Bindings;
use crate::elements::element;
use crate::fault::TextFault;
use std::alloc::Global;
use xml_grammar::is_at_end;
use xml_markup::{epilog, optional_declaration, prolog, skip_bom};
use xml_names::ReadError;
use xml_tokens::{FaultKind, ParseError, rest_offset};
use xml_tree::{Element, Scope};

/// The root element that a text begins with, with at most this many levels, and what follows it.
fn root_element<'a>(
    alloc: Global,
    text: &'a str,
    scope: &Scope<'_>,
    depth: usize,
) -> Result<(Element, &'a str), ParseError<'a>>
    requires { length scope.now + depth ≤ SCOPE_LIMIT }
    ensures reads_rule { IsSameResult (λ x. (x.0, chars x.1.now)) result
        (read_element depth scope.now 1 (chars text.now)) }
{
    let mut bindings = Bindings::from_scope(alloc, scope)?;
    let read = element(alloc, text, &mut bindings, 1, depth);
    drop(bindings);
    read
}

/// The root element of a whole text, with at most this many levels.
fn root<'a>(
    alloc: Global,
    text: &'a str,
    scope: &Scope<'_>,
    depth: usize,
) -> Result<Element, ParseError<'a>>
    requires { length scope.now + depth ≤ SCOPE_LIMIT }
    ensures grammar_answer { IsSameWholeResult result
        (read_whole_text (read_text depth scope.now) (chars text.now)) }
{
    let rest = skip_bom(text);
    let rest = optional_declaration(rest)?;
    let rest = prolog(rest)?;
    let (root, rest) = root_element(alloc, rest, scope, depth)?;
    let rest = epilog(rest)?;
    if !is_at_end(rest) {
        drop(root);
        return Err(ParseError::Syntax(rest));
    }
    Ok(root)
}

/// The error for a stop, in the text of these bytes.
fn error(bytes: &[u8], stop: ParseError<'_>) -> ReadError<TextFault>
    ensures text_fault { IsErrorOfStop bytes.now stop.entry result }
{
    match stop {
        ParseError::Syntax(rest) => ReadError::Fault(TextFault::NotWellFormed(rest_offset(
            bytes, rest,
        ))),
        ParseError::Faulty(kind, rest) => ReadError::Fault(match kind {
            FaultKind::Encoded => TextFault::NotUtf8,
            FaultKind::Doctyped => TextFault::Doctype(rest_offset(bytes, rest)),
            FaultKind::Depth(_) => TextFault::TooDeep(rest_offset(bytes, rest)),
            FaultKind::Unbound => TextFault::Namespace(rest_offset(bytes, rest)),
            FaultKind::Repeated => TextFault::RepeatedAttribute(rest_offset(bytes, rest)),
        }),
        ParseError::Memory => ReadError::NoMemory,
    }
}

/// The tree that bytes spell in a scope.
fn read(
    alloc: Global,
    bytes: &[u8],
    scope: &Scope<'_>,
    depth: usize,
) -> Result<Element, ReadError<TextFault>>
    requires { length scope.now + depth ≤ SCOPE_LIMIT }
    ensures grammar_answer { ResultSatisfies
        (λ answer. answer ≡ read_document_text depth scope.now bytes.now) result }
{
    let Ok(text) = str::from_utf8(bytes) else {
        return Err(ReadError::Fault(TextFault::NotUtf8));
    };
    match root(alloc, text, scope, depth) {
        Ok(root) => Ok(root),
        Err(stop) => Err(error(bytes, stop)),
    }
}

/// The tree that the bytes of a document spell, with at most `depth` levels (XML 1.0; Namespaces
/// in XML 1.0).
///
/// # Errors
/// The fault with the least place; `NoMemory` when out of memory.
pub fn read_document(
    alloc: Global,
    bytes: &[u8],
    depth: usize,
) -> Result<Element, ReadError<TextFault>>
    requires lower_bound { 1 ≤ depth }
    requires upper_bound { depth ≤ SCOPE_LIMIT }
    ensures grammar_answer { ResultSatisfies (IsTextResult depth [] bytes.now) result }
    ensures is_proper { IfOk result (λ tree. IsProperTree [] tree × (height tree ≤ depth)) }
{
    read(alloc, bytes, &Scope::empty(), depth)
}

/// The tree that the bytes of a fragment spell, with at most `depth` levels: the grammar of
/// documents, where the scope around it may also bind prefixes (RFC 4825, section 8.2).
///
/// # Errors
/// The fault with the least place; `NoMemory` when out of memory. With a depth of 0 every root
/// element is `TooDeep`.
pub fn read_fragment(
    alloc: Global,
    bytes: &[u8],
    scope: &Scope<'_>,
    depth: usize,
) -> Result<Element, ReadError<TextFault>>
    requires { length scope.now + depth ≤ SCOPE_LIMIT }
    ensures grammar_answer { ResultSatisfies (IsTextResult depth scope.now bytes.now) result }
    ensures is_proper { IfOk result (λ tree. IsProperTree scope.now tree × (height tree ≤ depth)) }
{
    read(alloc, bytes, scope, depth)
}
