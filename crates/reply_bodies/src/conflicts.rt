//! Error documents (RFC 4825, section 11).
ghost use Rattle.std.specs.Prelude.{◌≡◌, [], ◌∷◌, ◌++◌, IfNone, IfOk, IfSome, OnOk, codes};
ghost use Rattle.std.specs.Prelude.{encode_utf8_all, flat_map};
ghost use Rattle.xml_names.specs.Markup.{text_escape, value_escape};
ghost use Rattle.xml_tree.specs.Print.{document_print};
ghost use Rattle.reply_bodies.specs.Conflicts.{HasNonEmptyUri, conflict_root, conflict_bytes};
ghost use Rattle.reply_bodies.specs.Conflicts.{child_bytes};

use std::alloc::{AllocError, Global};
use xcap_io::Bytes;
use xml_names::{Text, text_reference, value_reference};

/// Why a request conflicts with the document that it addresses.
#[derive(Drop)]
pub enum ErrorBody {
    NotUtf8,
    NotWellFormed,
    NotXmlFrag,
    NotXmlAttValue,
    /// The nearest existing ancestor, as a URI.
    NoParent(Text),
    Schema,
    CannotInsert,
    CannotDelete,
    /// The attribute whose value already exists: a path, `/@` and a name.
    Unique(Text),
    Constraint,
}

// The bytes before and after the child of the root.
const OPENING: &[u8] =
    b"<?xml version=\"1.0\" encoding=\"UTF-8\"?>\n<xcap-error xmlns=\"urn:ietf:params:xml:ns:xcap-error\">";

const CLOSING: &[u8] = b"</xcap-error>";

/// The error document for this conflict.
///
/// # Errors
/// `AllocError` when out of memory.
pub fn error_document(alloc: Global, body: &ErrorBody) -> Result<Bytes, AllocError>
    ensures ok { IfOk result (λ document. document ≡ conflict_bytes body.now) }
    ensures prints_error { HasNonEmptyUri body.now
        → IfOk result (λ document. document
        ≡ encode_utf8_all (document_print (conflict_root body.now))) }
{
    let document = document(alloc, body)?;
    Ok(document)
}

// Builds the document, piece by piece.
fn document(alloc: Global, body: &ErrorBody) -> Result<Bytes, AllocError>
    ensures ok { IfOk result (λ document. document ≡ conflict_bytes body.now) }
{
    let mut document = Bytes::new(alloc);
    document.extend(OPENING)?;
    push_child(&mut document, body)?;
    document.extend(CLOSING)?;
    Ok(document)
}

// Appends the child of the root.
fn push_child(document: &mut Bytes, body: &ErrorBody) -> Result<(), AllocError>
    ensures appended { OnOk result (document.new ≡ document.old ++ child_bytes body.now) }
{
    match body {
        ErrorBody::NotUtf8 => document.extend(b"<not-utf-8/>"),
        ErrorBody::NotWellFormed => document.extend(b"<not-well-formed/>"),
        ErrorBody::NotXmlFrag => document.extend(b"<not-xml-frag/>"),
        ErrorBody::NotXmlAttValue => document.extend(b"<not-xml-att-value/>"),
        ErrorBody::NoParent(uri) => push_no_parent(document, uri.as_str().as_bytes()),
        ErrorBody::Schema => document.extend(b"<schema-validation-error/>"),
        ErrorBody::CannotInsert => document.extend(b"<cannot-insert/>"),
        ErrorBody::CannotDelete => document.extend(b"<cannot-delete/>"),
        ErrorBody::Unique(field) => push_unique(document, field.as_str().as_bytes()),
        ErrorBody::Constraint => document.extend(b"<constraint-failure/>"),
    }
}

// Appends the child that names an ancestor.
fn push_no_parent(document: &mut Bytes, uri: &[u8]) -> Result<(), AllocError>
    ensures appended { OnOk result
        (document.new ≡ document.old
        ++ (codes "<no-parent><ancestor>" ++ flat_map text_escape uri.now
        ++ codes "</ancestor></no-parent>")) }
{
    document.extend(b"<no-parent><ancestor>")?;
    push_text(document, uri)?;
    document.extend(b"</ancestor></no-parent>")?;
    Ok(())
}

// Appends the child that names an attribute.
fn push_unique(document: &mut Bytes, field: &[u8]) -> Result<(), AllocError>
    ensures adds_attribute { OnOk result
        (document.new ≡ document.old
        ++ (codes "<uniqueness-failure><exists field=\"" ++ flat_map value_escape field.now
        ++ codes "\"/></uniqueness-failure>")) }
{
    document.extend(b"<uniqueness-failure><exists field=\"")?;
    push_value(document, field)?;
    document.extend(b"\"/></uniqueness-failure>")?;
    Ok(())
}

// Appends a text, its markup escaped.
fn push_text(document: &mut Bytes, text: &[u8]) -> Result<(), AllocError>
    ensures appended { OnOk result (document.new ≡ document.old ++ flat_map text_escape text.now) }
{
    for byte in text {
        push_byte(document, *byte, text_reference(*byte as char))?;
    }
    Ok(())
}

// Appends an attribute value in quotes, its markup escaped.
fn push_value(document: &mut Bytes, value: &[u8]) -> Result<(), AllocError>
    ensures appended { OnOk result
        (document.new ≡ document.old ++ flat_map value_escape value.now) }
{
    for byte in value {
        push_byte(document, *byte, value_reference(*byte as char))?;
    }
    Ok(())
}

// Appends a byte, or the reference that it is written as.
fn push_byte(document: &mut Bytes, byte: u8, reference: Option<&str>) -> Result<(), AllocError>
    ensures special_escaped { IfSome reference.entry
        (λ letters. OnOk result (document.new ≡ document.old ++ letters.now)) }
    ensures plain_as_itself { IfNone reference.entry
        (OnOk result (document.new ≡ document.old ++ byte ∷ [])) }
{
    match reference {
        Some(letters) => document.extend(letters.as_bytes()),
        None => document.push(byte),
    }
}
