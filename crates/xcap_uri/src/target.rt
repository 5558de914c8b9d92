//! Request targets (RFC 4825, section 6): what the address in a request means under the root.
ghost use Rattle.std.specs.Prelude.{◌≡◌, ◌++◌, None, Err, option_map, IfOk, OnOk, string_bytes};
ghost use Rattle.doc_names.specs.PercentEscapes.{escape_octets, is_visible};
ghost use Rattle.xcap_uri.specs.Roots.{path_of};
ghost use Rattle.xcap_uri.specs.inner.Results.{IsStatedOr};
ghost use Rattle.xml_names.specs.ReadErrors.{ResultSatisfies};
ghost use Rattle.xcap_uri.specs.Targets.{IsReadableTarget, IsTargetResult, raw_text, rest_under};
ghost use Rattle.xcap_uri.specs.Targets.{rest_under_root, with_query};
ghost use Rattle.xcap_uri.specs.readers.Targets.{require_element, parsed_target_selector};
ghost use Rattle.xcap_uri.specs.readers.Targets.{parsed_rest};
ghost use Rattle.xcap_uri.specs.readers.Targets.{target_of};
ghost use Rattle.xcap_uri.specs.readers.Targets.{parsed_target};

use crate::delimiters::{cut, strip_front};
use crate::escapes::read_optional_part;
use crate::fault::{UriFault, uri_error};
use crate::query::read_query;
use crate::root::Root;
use crate::segments::read_path;
use crate::shape::{Shape, shape_of};
use doc_names::{Auid, DocId, Home, push_escaped_octets};
use node_select::{Bindings, End, Selector, read_selector};
use std::alloc::{AllocError, Global};
use xml_names::{ReadError, Text};
use xml_tokens::empty_text;

/// The diff processing of a feed (RFC 5875, section 4.3).
#[derive(Clone, Copy, PartialEq, Eq)]
pub enum Mode {
    NoPatching,
    XcapPatching,
    Aggregate,
}

/// The meaning of a target.
#[derive(Drop)]
pub enum Target {
    /// A document.
    Document(DocId),
    /// A node of a document.
    Node(DocId, Selector),
    /// Something below a document, where nothing can exist.
    Deep(Auid, Home),
    /// The changes of a document since an etag.
    Feed {
        mode: Mode,
        tag: u64,
        doc: DocId,
    },
    /// Whether an element may have changed since an etag. `raw` is the text after the separator
    /// and its slash, query included, with each octet escaped that isn't visible ASCII.
    ElementFeed {
        tag: u64,
        doc: DocId,
        selector: Selector,
        raw: Text,
    },
    /// The flat list of a service of a document.
    Flat {
        doc: DocId,
        service: Text,
    },
}

// What comes after `front` and a slash, if the target begins with them.
fn strip_front_and_slash<'a>(target: &'a [u8], front: &[u8]) -> Option<&'a [u8]>
    ensures exact { option_map (λ x. x.now) result ≡ rest_under front.now target.now }
{
    let rest = strip_front(target, front)?;
    strip_front(rest, b"/")
}

// The octets of the root's text, and of its path.
fn text_octets(root: &Root) -> &[u8]
    ensures exact { result.now ≡ root.now }
{
    root.text().as_bytes()
}

fn path_octets(root: &Root) -> &[u8]
    ensures exact { result.now ≡ path_of root.now }
{
    root.path().as_bytes()
}

/// What comes after the root, or its path, and a slash, if the target begins with them. Does not
/// allocate.
pub fn rest_under_root<'a>(root: &Root, target: &'a [u8]) -> Option<&'a [u8]>
    ensures exact { option_map (λ x. x.now) result ≡ rest_under_root root.now target.now }
{
    match strip_front_and_slash(target, text_octets(root)) {
        Some(rest) => Some(rest),
        None => strip_front_and_slash(target, path_octets(root)),
    }
}

// The selector that a text spells in a document of this AUID.
fn read_target_selector(
    alloc: Global,
    bindings: &Bindings,
    auid: Auid,
    text: &Text,
) -> Result<Selector, ReadError<UriFault>>
    ensures exact { IsStatedOr ReadError.NoMemory
        (parsed_target_selector bindings.now auid text.now) result }
{
    match read_selector(alloc, text.as_str(), bindings, auid.namespace()) {
        Ok(selector) => Ok(selector),
        Err(error) => Err(uri_error(error)),
    }
}

// The selector, if it selects an element.
fn require_element(selector: Selector) -> Result<Selector, ReadError<UriFault>>
    ensures exact { result ≡ require_element selector }
{
    match &selector.end {
        End::Element => Ok(selector),
        _ => Err(ReadError::Fault(UriFault::BadSelector)),
    }
}

// Appends the selector after the separator, and the query.
fn push_raw(line: &mut String, selector: &[u8], query: Option<&[u8]>) -> Result<(), AllocError>
    ensures appended { OnOk result
        (string_bytes line.new
        ≡ string_bytes line.old ++ escape_octets is_visible
        (with_query selector.now (option_map (λ x. x.now) query.entry))) }
{
    push_escaped_octets(line, selector)?;
    match query {
        None => Ok(()),
        Some(query) => {
            push_escaped_octets(line, b"?")?;
            push_escaped_octets(line, query)
        }
    }
}

// The text after the separator and its slash, escaped.
fn raw_text(
    alloc: Global,
    selector: Option<&[u8]>,
    query: Option<&[u8]>,
) -> Result<Text, AllocError>
    ensures ok { IfOk result
        (λ text. text ≡ raw_text (option_map (λ x. x.now) selector.entry)
        (option_map (λ x. x.now) query.entry)) }
{
    match selector {
        None => Ok(empty_text(alloc)),
        Some(selector) => {
            let mut line = String::new(alloc);
            push_raw(&mut line, selector, query)?;
            Ok(Text::own(line))
        }
    }
}

// The target of a shape, with the bindings of the query. The text after the separator is escaped
// only for the feed of an element.
fn target_of(
    alloc: Global,
    shape: Shape,
    bindings: &Bindings,
    raw_selector: Option<&[u8]>,
    raw_query: Option<&[u8]>,
) -> Result<Target, ReadError<UriFault>>
    ensures target_of_shape { IsStatedOr ReadError.NoMemory
        (target_of shape bindings.now
        (raw_text (option_map (λ x. x.now) raw_selector.entry)
        (option_map (λ x. x.now) raw_query.entry))) result }
{
    match shape {
        Shape::Document(doc) => Ok(Target::Document(doc)),
        Shape::Node(doc, text) => {
            let selector = read_target_selector(alloc, bindings, doc.auid, &text)?;
            Ok(Target::Node(doc, selector))
        }
        Shape::Deep(auid, home) => Ok(Target::Deep(auid, home)),
        Shape::Feed(mode, tag, doc) => Ok(Target::Feed { mode, tag, doc }),
        Shape::ElementFeed(tag, doc, text) => {
            let selector = read_target_selector(alloc, bindings, doc.auid, &text)?;
            let selector = require_element(selector)?;
            let raw = raw_text(alloc, raw_selector, raw_query)?;
            Ok(Target::ElementFeed {
                tag,
                doc,
                selector,
                raw,
            })
        }
        Shape::Flat(doc, service) => Ok(Target::Flat { doc, service }),
    }
}

// Reads the target after the root.
fn read_rest(alloc: Global, rest: &[u8]) -> Result<Target, ReadError<UriFault>>
    ensures reads_below_root { IsStatedOr ReadError.NoMemory (parsed_rest rest.now) result }
{
    let (path, raw_query) = cut(rest, b'?');
    let (mut segments, raw_selector) = read_path(alloc, path)?;
    let selector = read_optional_part(alloc, raw_selector)?;
    let query = read_optional_part(alloc, raw_query)?;
    let shape = shape_of(alloc, &mut segments, selector)?;
    let bindings = read_query(alloc, &query)?;
    target_of(alloc, shape, &bindings, raw_selector, raw_query)
}

// Reads the target, which may be outside the root.
fn read_under_root(alloc: Global, root: &Root, target: &[u8]) -> Result<Target, ReadError<UriFault>>
    ensures stated_answer { IsStatedOr ReadError.NoMemory
        (parsed_target root.now target.now) result }
    ensures outside_is_refused { rest_under_root root.now target.now ≡ None
        → result ≡ Err (ReadError.Fault UriFault.OutsideRoot) }
{
    match rest_under_root(root, target) {
        None => Err(ReadError::Fault(UriFault::OutsideRoot)),
        Some(rest) => read_rest(alloc, rest),
    }
}

/// What a target means under a root. It begins with the whole root or with its path, and then a
/// slash.
///
/// # Errors
/// The first fault in the order that `UriFault` gives, exactly where there is one; `NoMemory` when
/// out of memory, never where the target is outside the root.
pub fn read_target(alloc: Global, root: &Root, target: &[u8]) -> Result<Target, ReadError<UriFault>>
    ensures rules_answer { ResultSatisfies (IsTargetResult root.now target.now) result }
    ensures outside_without_memory { rest_under_root root.now target.now ≡ None
        → result ≡ Err (ReadError.Fault UriFault.OutsideRoot) }
    ensures readable_ids { IfOk result IsReadableTarget }
{
    read_under_root(alloc, root, target)
}
