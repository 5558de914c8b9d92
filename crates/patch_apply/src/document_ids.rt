//! Names of documents, read back (RFC 4825, section 6.2; RFC 3986, section 2.1).
ghost use Rattle.std.specs.Prelude.{◌≡◌, ◌∷◌, [], IfOk, Some, map, codes};
ghost use Rattle.xcap_uri.specs.PrintedNames.{parts_decode_to, is_name_of, part_decodes_to};

use doc_names::{DocId, Home};
use percent_encoding::percent_decode;
use std::alloc::{AllocError, Global};
use xcap_uri::{cut, has_complete_escapes};
use xml_names::Text;

// ---- one part

// Whether a part of an address, its escapes decoded, is a text.
fn part_decodes_to(alloc: Global, text: &str, part: &[u8]) -> Result<bool, AllocError>
    ensures ok { IfOk result (λ is. is ≡ part_decodes_to text.now part.now) }
{
    if !has_complete_escapes(part) {
        return Ok(false);
    }
    let mut octets = Vec::new(alloc);
    percent_decode(part).append_to(&mut octets)?;
    Ok(octets.as_slice() == text.as_bytes())
}

// ---- all parts

// Whether the parts between the slashes of an address, decoded, are these texts, one for each.
fn parts_decode_to(alloc: Global, texts: &[&str], address: &[u8]) -> Result<bool, AllocError>
    ensures ok { IfOk result
        (λ are. are ≡ parts_decode_to (map (λ x. x.now) texts.now) (Some address.now)) }
{
    let mut rest = Some(address);
    for text in texts {
        let Some(here) = rest else {
            return Ok(false);
        };
        let (part, after) = cut(here, b'/');
        if !part_decodes_to(alloc, text, part)? {
            return Ok(false);
        }
        rest = after;
    }
    Ok(rest.is_none())
}

// Whether an address is a document's under `global`.
fn is_global_address<'a>(
    alloc: Global,
    auid: &'a str,
    name: &'a str,
    address: &[u8],
) -> Result<bool, AllocError>
    ensures ok { IfOk result
        (λ are. are
        ≡ parts_decode_to (auid.now ∷ codes "global" ∷ name.now ∷ []) (Some address.now)) }
{
    parts_decode_to(alloc, &[auid, "global", name], address)
}

// Whether an address is a document's under `users`.
fn is_user_address<'a>(
    alloc: Global,
    auid: &'a str,
    xui: &'a str,
    name: &'a str,
    address: &[u8],
) -> Result<bool, AllocError>
    ensures ok { IfOk result
        (λ are. are ≡ parts_decode_to (auid.now ∷ codes "users" ∷ xui.now ∷ name.now ∷ [])
        (Some address.now)) }
{
    parts_decode_to(alloc, &[auid, "users", xui, name], address)
}

/// Whether a printed name, its parts decoded, is the name of a document.
pub(crate) fn is_name_of(alloc: Global, doc: &DocId, name: &Text) -> Result<bool, AllocError>
    ensures ok { IfOk result (λ is. is ≡ is_name_of doc.now name.now) }
{
    let address = name.as_str().as_bytes();
    let auid = doc.auid.text();
    match &doc.home {
        Home::Global => is_global_address(alloc, auid, doc.name.as_str(), address),
        Home::User(xui) => is_user_address(alloc, auid, xui.as_str(), doc.name.as_str(), address),
    }
}
