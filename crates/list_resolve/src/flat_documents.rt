//! The document of a flat list (RFC 4826, section 3.2).
ghost use Rattle.std.specs.Prelude.{◌≡◌, [], ◌∷◌, ◌++◌, IfOk, IsTrue, OnOk, codes, min};
ghost use Rattle.usage_docs.specs.Services.{document_len};
ghost use Rattle.usage_docs.specs.AsciiTexts.{is_ascii};
ghost use Rattle.xml_names.specs.ExpandedNames.{name_from_parts};
ghost use Rattle.xml_names.specs.ReadErrors.{ResultSatisfies};
ghost use Rattle.xml_tree.specs.Tree.{content_of_children, tree_of};
ghost use Rattle.list_resolve.specs.Documents.{entry_tree, flat_document, flat_tree, list_tree};

use crate::fault::FlatFault;
use std::alloc::{AllocError, Global};
use xml_names::{Attr, Decl, LocalName, Name, Prefix, ReadError, Text};
use xml_tree::{Element, printed_len};

/// The greatest number of bytes of the printed document.
const DOCUMENT_LIMIT: usize = 16_777_216;

// The length in bytes of a printed document before its root.
const FRONT_LEN: usize = 39;

const LISTS: &str = "urn:ietf:params:xml:ns:resource-lists";

// A text of these letters.
#[tactic(auto, using(usage_docs::proofs::Words::chars_ascii))]
fn word(alloc: Global, word: &str) -> Result<Text, AllocError>
    requires { IsTrue (is_ascii word.now) }
    ensures ok { IfOk result (λ made. made ≡ word.now) }
{
    Text::from(alloc, word)
}

// A local name of these letters.
#[tactic(auto, using(usage_docs::proofs::Words::chars_ascii))]
fn local_name(alloc: Global, word: &str) -> Result<LocalName, AllocError>
    requires { IsTrue (is_ascii word.now) }
    ensures ok { IfOk result (λ made. made ≡ word.now) }
{
    LocalName::from(alloc, word)
}

// A name without a prefix.
fn plain_name(alloc: Global, local: &str) -> Result<Name, AllocError>
    requires { IsTrue (is_ascii local.now) }
    ensures name_without_prefix { IfOk result (λ made. made ≡ name_from_parts [] local.now) }
{
    let prefix = Prefix::empty();
    let local = local_name(alloc, local)?;
    Ok(Name { prefix, local })
}

// An empty element of this name.
fn empty_element(alloc: Global, local: &str) -> Result<Element, AllocError>
    requires { IsTrue (is_ascii local.now) }
    ensures named_alone { IfOk result
        (λ made. made ≡ tree_of (name_from_parts [] local.now) [] [] (content_of_children [])) }
{
    let name = plain_name(alloc, local)?;
    Ok(Element::new(alloc, name))
}

// Adds an address to an entry.
fn push_uri(alloc: Global, entry: &mut Element, uri: &Text) -> Result<(), AllocError>
    ensures ok { OnOk result
        (entry.new ≡ record entry.old {
          attrs =
              entry.old.attrs
              ++ record { name = name_from_parts [] (codes "uri"); value = uri.now } ∷ [];
        }) }
{
    let name = plain_name(alloc, "uri")?;
    let value = uri.copy(alloc)?;
    entry.push_attr(Attr { name, value })
}

// The entry of an address.
fn entry(alloc: Global, uri: &Text) -> Result<Element, AllocError>
    ensures ok { IfOk result (λ made. made ≡ entry_tree uri.now) }
{
    let mut entry = empty_element(alloc, "entry")?;
    push_uri(alloc, &mut entry, uri)?;
    Ok(entry)
}

// Appends the entries of these addresses to a list that has none.
fn push_entries(alloc: Global, list: &mut Element, uris: &[Text]) -> Result<(), AllocError>
    requires { list.old ≡ list_tree [] }
    ensures ok { OnOk result (list.new ≡ list_tree uris.now) }
{
    for uri in uris {
        let entry = entry(alloc, uri)?;
        list.push_elem(entry)?;
    }
    Ok(())
}

// The list of the entries of these addresses.
fn list(alloc: Global, uris: &[Text]) -> Result<Element, AllocError>
    ensures ok { IfOk result (λ made. made ≡ list_tree uris.now) }
{
    let mut list = empty_element(alloc, "list")?;
    push_entries(alloc, &mut list, uris)?;
    Ok(list)
}

// Declares the namespace of lists, and appends the list.
#[tactic(auto, unfolding(usage_docs::specs::SchemaTable::lists_namespace))]
fn push_list(alloc: Global, root: &mut Element, uris: &[Text]) -> Result<(), AllocError>
    requires { root.old
        ≡ tree_of (name_from_parts [] (codes "resource-lists")) [] [] (content_of_children []) }
    ensures declares_and_adds { OnOk result (root.new ≡ flat_tree uris.now) }
{
    let uri = word(alloc, LISTS)?;
    root.push_decl(Decl {
        prefix: Prefix::empty(),
        uri,
    })?;
    let list = list(alloc, uris)?;
    root.push_elem(list)
}

// The root, with this list and nothing else.
fn flat_list_root(alloc: Global, uris: &[Text]) -> Result<Element, AllocError>
    ensures ok { IfOk result (λ made. made ≡ flat_tree uris.now) }
{
    let mut root = empty_element(alloc, "resource-lists")?;
    push_list(alloc, &mut root, uris)?;
    Ok(root)
}

// The length of a printed document; the greatest number where it is longer.
fn document_len(root: &Element) -> usize
    ensures exact { result ≡ min (document_len root.now) usize.MAX }
{
    printed_len(root).saturating_add(FRONT_LEN)
}

/// The document of a flat list.
///
/// # Errors
/// `TooLarge` exactly where the printed document would have more than `DOCUMENT_LIMIT` bytes, with
/// their number, or with the greatest `usize` where that is less; `NoMemory` when out of memory.
pub fn flat_document(alloc: Global, uris: &[Text]) -> Result<Element, ReadError<FlatFault>>
    ensures list_document { ResultSatisfies (λ answer. answer ≡ flat_document uris.now) result }
{
    let root = flat_list_root(alloc, uris)?;
    let len = document_len(&root);
    if len > DOCUMENT_LIMIT {
        return Err(ReadError::Fault(FlatFault::TooLarge(len)));
    }
    Ok(root)
}
