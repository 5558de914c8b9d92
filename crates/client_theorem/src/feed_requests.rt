//! Requests for feeds, and the address of a feed.
ghost use Rattle.std.specs.Prelude.{◌≡◌, ◌↔◌, IsTrue, IfOk};
ghost use Rattle.doc_names.specs.DocIds.{IsDocumentSegment};
ghost use Rattle.client_theorem.specs.FeedRequests.{HasFeed, feed_address, feed_request, mode_text};
ghost use Rattle.client_theorem.specs.FeedRequests.{user_field, user_fields};

use doc_names::{DocId, Home, print_doc_id};
use http_wire::{Field, Request};
use std::alloc::{AllocError, Global};
use xcap_io::Bytes;
use xcap_uri::{Mode, Root, roots_are_spelled_by_the_grammar};
use xml_names::{List, Text};

// Whether a text can name a user or a document in an address.
fn is_nameable(text: &Text) -> bool
    ensures exact { IsTrue result ↔ IsDocumentSegment text.now }
{
    !text.is_empty() && !text.is("~~")
}

/// Whether a document has feeds: it is a user's, in a usage that stores documents, and an address
/// can name it (RFC 4825, section 6.2). Does not allocate.
pub fn has_feed(doc: &DocId) -> bool
    ensures exact { IsTrue result ↔ HasFeed doc.now }
{
    let Home::User(xui) = &doc.home else {
        return false;
    };
    if !is_nameable(xui) || !is_nameable(&doc.name) {
        return false;
    }
    doc.auid.stored_usage().is_some()
}

// The name of a mode.
fn mode_text(mode: Mode) -> &'static str
    ensures exact { result.now ≡ mode_text mode }
{
    match mode {
        Mode::NoPatching => "no-patching",
        Mode::XcapPatching => "xcap-patching",
        Mode::Aggregate => "aggregate",
    }
}

// The address of the feed of a document since the version with a tag.
fn feed_address(
    alloc: Global,
    root: &Root,
    mode: Mode,
    tag: &Text,
    doc: &DocId,
) -> Result<Bytes, AllocError>
    ensures ok { IfOk result (λ address. address ≡ feed_address root.now mode tag.now doc.now) }
{
    roots_are_spelled_by_the_grammar();
    let id = print_doc_id(alloc, doc)?;
    let mut address = Bytes::from(alloc, root.text().as_bytes())?;
    address.extend(b"/~feed/")?;
    address.extend(mode_text(mode).as_bytes())?;
    address.extend(b"/")?;
    address.extend(tag.as_str().as_bytes())?;
    address.extend(b"/")?;
    address.extend(id.as_str().as_bytes())?;
    Ok(address)
}

// The field that names a user.
fn user_field(alloc: Global, xui: &Text) -> Result<Field, AllocError>
    ensures ok { IfOk result (λ field. field ≡ user_field xui.now) }
{
    let name = Text::from(alloc, "X-XCAP-User")?;
    let value = Bytes::from(alloc, xui.as_str().as_bytes())?;
    Ok(Field { name, value })
}

// The fields that name the user of a home; none for the global home.
fn user_fields(alloc: Global, home: &Home) -> Result<List<Field>, AllocError>
    ensures ok { IfOk result (λ fields. fields ≡ user_fields home.now) }
{
    let mut fields = List::empty(alloc);
    match home {
        Home::Global => Ok(fields),
        Home::User(xui) => {
            let field = user_field(alloc, xui)?;
            fields.push(field)?;
            Ok(fields)
        }
    }
}

/// The request of a document's user for the changes of the document since the version with a tag,
/// in this mode: a GET of its feed under the root.
///
/// # Errors
/// `AllocError` when out of memory.
pub fn feed_request(
    alloc: Global,
    root: &Root,
    mode: Mode,
    tag: &Text,
    doc: &DocId,
) -> Result<Request, AllocError>
    ensures ok { IfOk result (λ request. request ≡ feed_request root.now mode tag.now doc.now) }
{
    let target = feed_address(alloc, root, mode, tag, doc)?;
    let fields = user_fields(alloc, &doc.home)?;
    let method = Text::from(alloc, "GET")?;
    Ok(Request {
        method,
        target,
        closes: false,
        fields,
        body: Bytes::new(alloc),
    })
}
