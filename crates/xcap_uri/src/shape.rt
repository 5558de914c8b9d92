//! What the segments of an address name: a document or a node of one (RFC 4825, section 6.2); or,
//! under `~feed` and `~flat`, which are this server's own, changes and the flat list of a service.
ghost use Rattle.std.specs.Prelude.{◌≡◌};
ghost use Rattle.std.specs.List.{list_any};
ghost use Rattle.xcap_uri.specs.Shapes.{doc_of, parse_tag};
ghost use Rattle.xcap_uri.specs.readers.Shapes.{auid_of, document_shape, document_feed_shape};
ghost use Rattle.xcap_uri.specs.readers.Shapes.{feed_shape_by_mode};
ghost use Rattle.xcap_uri.specs.readers.Shapes.{element_feed_shape, feed_shape, flat_shape};
ghost use Rattle.xcap_uri.specs.readers.Shapes.{home_shape};
ghost use Rattle.xcap_uri.specs.readers.Shapes.{usage_shape, is_empty, mode_of, shape_of_segments};
ghost use Rattle.xcap_uri.specs.readers.Shapes.{usage_shape_if_known};
ghost use Rattle.xcap_uri.specs.readers.Shapes.{user_shape, shape_of, stored_auid_of, stored_doc};

use crate::fault::UriFault;
use crate::numerals::parse_numeral;
use crate::target::Mode;
use doc_names::{Auid, DocId, Home};
use std::alloc::Global;
use std::mem;
use xml_names::{ReadError, Text};
use xml_tokens::empty_text;

/// What the segments of an address name. The variants are those of `Target`, with the selector as
/// a text that isn't parsed yet.
#[derive(Drop)]
pub enum Shape {
    /// A document.
    Document(DocId),
    /// A node of a document.
    Node(DocId, Text),
    /// Something below a document, where nothing can exist.
    Deep(Auid, Home),
    /// The changes of a document since an etag.
    Feed(Mode, u64, DocId),
    /// Whether an element may have changed since an etag.
    ElementFeed(u64, DocId, Text),
    /// The flat list of a service of a document.
    Flat(DocId, Text),
}

// The AUID of this name.
fn auid_of(name: &Text) -> Option<Auid>
    ensures exact { result ≡ auid_of name.now }
{
    if name.is("resource-lists") {
        return Some(Auid::ResourceLists);
    }
    if name.is("rls-services") {
        return Some(Auid::RlsServices);
    }
    if name.is("xcap-caps") {
        return Some(Auid::XcapCaps);
    }
    None
}

// The AUID of this name, if its documents are stored.
fn stored_auid_of(name: &Text) -> Option<Auid>
    ensures exact { result ≡ stored_auid_of name.now }
{
    if name.is("resource-lists") {
        return Some(Auid::ResourceLists);
    }
    if name.is("rls-services") {
        return Some(Auid::RlsServices);
    }
    None
}

// The diff processing mode of this name.
fn mode_of(name: &Text) -> Option<Mode>
    ensures exact { result ≡ mode_of name.now }
{
    if name.is("no-patching") {
        return Some(Mode::NoPatching);
    }
    if name.is("xcap-patching") {
        return Some(Mode::XcapPatching);
    }
    if name.is("aggregate") {
        return Some(Mode::Aggregate);
    }
    None
}

// The number of an etag.
fn tag_of(text: &Text) -> Option<u64>
    ensures exact { result ≡ parse_tag text.now }
{
    parse_numeral(text.as_str().as_bytes())
}

// Takes the text of a segment, and leaves it empty.
fn take_text(alloc: Global, segment: &mut Text) -> Text
    ensures exact { result ≡ segment.old }
{
    mem::replace(segment, empty_text(alloc))
}

// A document, or with a selector a node of it.
fn document_shape(doc: DocId, selector: Option<Text>) -> Result<Shape, ReadError<UriFault>>
    ensures exact { result ≡ document_shape doc selector }
{
    match selector {
        None => Ok(Shape::Document(doc)),
        Some(text) => {
            if text.is_empty() {
                return Err(ReadError::Fault(UriFault::BadShape));
            }
            Ok(Shape::Node(doc, text))
        }
    }
}

// What is named after a home.
fn home_shape(
    alloc: Global,
    auid: Auid,
    home: Home,
    rest: &mut [Text],
    selector: Option<Text>,
) -> Result<Shape, ReadError<UriFault>>
    ensures exact { result ≡ home_shape auid home rest.old selector }
{
    match rest {
        [] => Err(ReadError::Fault(UriFault::BadShape)),
        [name] => {
            let name = take_text(alloc, name);
            document_shape(DocId { auid, home, name }, selector)
        }
        _ => Ok(Shape::Deep(auid, home)),
    }
}

// What is named after `users`.
fn user_shape(
    alloc: Global,
    auid: Auid,
    rest: &mut [Text],
    selector: Option<Text>,
) -> Result<Shape, ReadError<UriFault>>
    ensures exact { result ≡ user_shape auid rest.old selector }
{
    match rest.split_first_mut() {
        None => Err(ReadError::Fault(UriFault::BadShape)),
        Some((xui, rest)) => {
            let xui = take_text(alloc, xui);
            home_shape(alloc, auid, Home::User(xui), rest, selector)
        }
    }
}

// What is named after an AUID.
fn usage_shape(
    alloc: Global,
    auid: Auid,
    rest: &mut [Text],
    selector: Option<Text>,
) -> Result<Shape, ReadError<UriFault>>
    ensures exact { result ≡ usage_shape auid rest.old selector }
{
    match rest.split_first_mut() {
        None => Err(ReadError::Fault(UriFault::BadShape)),
        Some((tree, rest)) => {
            if tree.is("global") {
                return home_shape(alloc, auid, Home::Global, rest, selector);
            }
            if tree.is("users") {
                return user_shape(alloc, auid, rest, selector);
            }
            Err(ReadError::Fault(UriFault::BadShape))
        }
    }
}

// The document of a user in a stored application usage.
fn stored_doc(
    alloc: Global,
    auid: &Text,
    tree: &Text,
    xui: &mut Text,
    name: &mut Text,
) -> Option<DocId>
    ensures exact { result ≡ stored_doc auid.now tree.now xui.old name.old }
{
    if !tree.is("users") {
        return None;
    }
    match stored_auid_of(auid) {
        None => None,
        Some(auid) => {
            let home = Home::User(take_text(alloc, xui));
            let name = take_text(alloc, name);
            Some(DocId { auid, home, name })
        }
    }
}

// The feed of an element, which needs a selector.
fn element_feed_shape(
    tag: u64,
    doc: DocId,
    selector: Option<Text>,
) -> Result<Shape, ReadError<UriFault>>
    ensures exact { result ≡ element_feed_shape tag doc selector }
{
    match selector {
        None => Err(ReadError::Fault(UriFault::BadShape)),
        Some(text) => {
            if text.is_empty() {
                return Err(ReadError::Fault(UriFault::BadShape));
            }
            Ok(Shape::ElementFeed(tag, doc, text))
        }
    }
}

// The feed of a document, which needs a mode and no selector.
fn document_feed_shape(
    mode: Option<Mode>,
    tag: u64,
    doc: DocId,
    selector: Option<Text>,
) -> Result<Shape, ReadError<UriFault>>
    ensures exact { result ≡ document_feed_shape mode tag doc selector }
{
    match (mode, selector) {
        (Some(mode), None) => Ok(Shape::Feed(mode, tag, doc)),
        _ => Err(ReadError::Fault(UriFault::BadShape)),
    }
}

// The feed of a document or of an element.
fn feed_shape_by_mode(
    mode: &Text,
    tag: Option<u64>,
    doc: Option<DocId>,
    selector: Option<Text>,
) -> Result<Shape, ReadError<UriFault>>
    ensures exact { result ≡ feed_shape_by_mode mode.now tag doc selector }
{
    let Some(tag) = tag else {
        return Err(ReadError::Fault(UriFault::BadShape));
    };
    let Some(doc) = doc else {
        return Err(ReadError::Fault(UriFault::BadShape));
    };
    if mode.is("element") {
        return element_feed_shape(tag, doc, selector);
    }
    document_feed_shape(mode_of(mode), tag, doc, selector)
}

// What is named after `~feed`.
fn feed_shape(
    alloc: Global,
    rest: &mut [Text],
    selector: Option<Text>,
) -> Result<Shape, ReadError<UriFault>>
    ensures exact { result ≡ feed_shape rest.old selector }
{
    let Some((mode, rest)) = rest.split_first_mut() else {
        return Err(ReadError::Fault(UriFault::BadShape));
    };
    let Some((tag, rest)) = rest.split_first_mut() else {
        return Err(ReadError::Fault(UriFault::BadShape));
    };
    let Some((auid, rest)) = rest.split_first_mut() else {
        return Err(ReadError::Fault(UriFault::BadShape));
    };
    let Some((tree, rest)) = rest.split_first_mut() else {
        return Err(ReadError::Fault(UriFault::BadShape));
    };
    let Some((xui, rest)) = rest.split_first_mut() else {
        return Err(ReadError::Fault(UriFault::BadShape));
    };
    match rest {
        [name] => {
            let doc = stored_doc(alloc, auid, tree, xui, name);
            feed_shape_by_mode(mode, tag_of(tag), doc, selector)
        }
        _ => Err(ReadError::Fault(UriFault::BadShape)),
    }
}

// The flat list of a service of this document.
fn flat_list_shape(alloc: Global, xui: &mut Text, name: &mut Text, service: &mut Text) -> Shape
    ensures exact { result
        ≡ Shape.Flat (doc_of Auid.RlsServices (Home.User xui.old) name.old) service.old }
{
    let doc = DocId {
        auid: Auid::RlsServices,
        home: Home::User(take_text(alloc, xui)),
        name: take_text(alloc, name),
    };
    Shape::Flat(doc, take_text(alloc, service))
}

// What is named after `~flat`.
fn flat_shape(
    alloc: Global,
    rest: &mut [Text],
    selector: Option<Text>,
) -> Result<Shape, ReadError<UriFault>>
    ensures exact { result ≡ flat_shape rest.old selector }
{
    let Some((xui, rest)) = rest.split_first_mut() else {
        return Err(ReadError::Fault(UriFault::BadShape));
    };
    let Some((name, rest)) = rest.split_first_mut() else {
        return Err(ReadError::Fault(UriFault::BadShape));
    };
    match (rest, selector) {
        ([service], None) => Ok(flat_list_shape(alloc, xui, name, service)),
        _ => Err(ReadError::Fault(UriFault::BadShape)),
    }
}

// What is named after an AUID, if it is one.
fn usage_shape_if_known(
    alloc: Global,
    auid: Option<Auid>,
    rest: &mut [Text],
    selector: Option<Text>,
) -> Result<Shape, ReadError<UriFault>>
    ensures exact { result ≡ usage_shape_if_known auid rest.old selector }
{
    match auid {
        None => Err(ReadError::Fault(UriFault::UnknownAuid)),
        Some(auid) => usage_shape(alloc, auid, rest, selector),
    }
}

// What segments that aren't empty name.
fn shape_of_segments(
    alloc: Global,
    segments: &mut [Text],
    selector: Option<Text>,
) -> Result<Shape, ReadError<UriFault>>
    ensures exact { result ≡ shape_of_segments segments.old selector }
{
    match segments.split_first_mut() {
        None => Err(ReadError::Fault(UriFault::UnknownAuid)),
        Some((first, rest)) => {
            if first.is("~feed") {
                return feed_shape(alloc, rest, selector);
            }
            if first.is("~flat") {
                return flat_shape(alloc, rest, selector);
            }
            usage_shape_if_known(alloc, auid_of(first), rest, selector)
        }
    }
}

// Whether a segment is empty.
fn is_empty(segment: &Text) -> bool
    ensures exact { result ≡ is_empty segment.now }
{
    segment.is_empty()
}

// Whether one of the segments is empty.
fn has_empty_segment(segments: &[Text]) -> bool
    ensures exact { result ≡ list_any is_empty segments.now }
{
    segments.iter().any(|segment| is_empty(segment))
}

/// What the segments of an address, decoded, name with the text of the selector after them.
///
/// Names are moved out of the segments, so this does not allocate.
///
/// # Errors
/// `BadShape` or `UnknownAuid`, the first that applies.
pub fn shape_of(
    alloc: Global,
    segments: &mut [Text],
    selector: Option<Text>,
) -> Result<Shape, ReadError<UriFault>>
    ensures exact { result ≡ shape_of segments.old selector }
{
    if has_empty_segment(segments) {
        return Err(ReadError::Fault(UriFault::BadShape));
    }
    shape_of_segments(alloc, segments, selector)
}
