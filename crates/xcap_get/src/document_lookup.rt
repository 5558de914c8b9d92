//! The resource of an address (RFC 4825, section 6; RFC 4826, sections 4.4.7 and 4.4.8).
ghost use Rattle.std.specs.Prelude.{◌≡◌, true, IfOk};
ghost use Rattle.std.specs.Option.{option_map_or};
ghost use Rattle.std.specs.Str.{bytes_eq};
ghost use Rattle.usage_docs.specs.Capabilities.{capabilities};
ghost use Rattle.doc_names.specs.declared.doc_id.Auid.TheVariants.{RlsServices};
ghost use Rattle.store_core.specs.Indexes.{index};
ghost use Rattle.xcap_machine.specs.Resources.{IsResourceOf, IsGlobalResource, absent, there};
ghost use Rattle.xcap_machine.specs.Resources.{version_of};
ghost use Rattle.xcap_get.specs.inner.FoundResources.{IsWithinLevels, resource_of};

use crate::service_index::index_of_services;
use doc_names::{Auid, DocId, Home};
use std::alloc::{AllocError, Global};
use store_core::Store;
use usage_docs::capabilities_document;
use xml_names::ReadError;
use xml_tree::Element;

/// The resource of an address.
#[derive(Drop)]
pub enum DocumentLookup<'a> {
    /// There is none.
    Absent,
    /// A computed document that would be longer than its limit.
    BeyondLimit,
    /// A stored document, with its tag.
    Held(&'a Element, u64),
    /// A computed document, with its tag.
    Computed(Element, u64),
}

// A stored document, or none.
fn stored_document<'a>(store: &'a Store, doc: &DocId) -> DocumentLookup<'a>
    ensures leads_there { resource_of result
        ≡ option_map_or (λ stored_document. there stored_document.0 stored_document.1)
        (version_of store.now.content doc.now) absent }
    ensures found_within_levels { IsWithinLevels result }
{
    match store.get(doc) {
        None => DocumentLookup::Absent,
        Some((root, tag)) => DocumentLookup::Held(root, tag),
    }
}

// The index of services, unless it is beyond its limit. Its tag is the last number given.
fn find_index<'a>(alloc: Global, store: &'a Store) -> Result<DocumentLookup<'a>, AllocError>
    ensures leads_there { IfOk result
        (λ f. IsGlobalResource store.now.content RlsServices true (resource_of f)) }
    ensures found_within_levels { IfOk result (λ f. IsWithinLevels f) }
{
    match index_of_services(alloc, store) {
        Ok(root) => Ok(DocumentLookup::Computed(root, store.last_number())),
        Err(ReadError::Fault(_)) => Ok(DocumentLookup::BeyondLimit),
        Err(ReadError::NoMemory) => Err(AllocError),
    }
}

// The capabilities, which never change.
fn find_capabilities<'a>(alloc: Global) -> Result<DocumentLookup<'a>, AllocError>
    ensures leads_there { IfOk result (λ f. resource_of f ≡ there capabilities 0) }
    ensures found_within_levels { IfOk result (λ f. IsWithinLevels f) }
{
    let root = capabilities_document(alloc)?;
    Ok(DocumentLookup::Computed(root, 0))
}

// The computed document of a usage whose name is `index`.
fn computed_document<'a>(
    alloc: Global,
    store: &'a Store,
    auid: Auid,
) -> Result<DocumentLookup<'a>, AllocError>
    ensures leads_there { IfOk result
        (λ f. IsGlobalResource store.now.content auid true (resource_of f)) }
    ensures found_within_levels { IfOk result (λ f. IsWithinLevels f) }
{
    match auid {
        Auid::ResourceLists => Ok(DocumentLookup::Absent),
        Auid::RlsServices => find_index(alloc, store),
        Auid::XcapCaps => find_capabilities(alloc),
    }
}

// A document under `global`.
#[tactic(auto, unfolding(store_core::specs::Indexes::index))]
fn global_document<'a>(
    alloc: Global,
    store: &'a Store,
    doc: &DocId,
) -> Result<DocumentLookup<'a>, AllocError>
    ensures leads_there { IfOk result
        (λ f. IsGlobalResource store.now.content doc.now.auid (bytes_eq doc.now.name index)
        (resource_of f)) }
    ensures found_within_levels { IfOk result (λ f. IsWithinLevels f) }
{
    if !doc.name.is("index") {
        return Ok(DocumentLookup::Absent);
    }
    computed_document(alloc, store, doc.auid)
}

/// Finds the document of a name. A stored document is borrowed and one under `global` is computed;
/// each has at most `MAX_LEVELS` levels.
///
/// # Errors
/// `AllocError` when out of memory.
pub fn find_resource<'a>(
    alloc: Global,
    store: &'a Store,
    doc: &DocId,
) -> Result<DocumentLookup<'a>, AllocError>
    ensures leads_there { IfOk result (λ f.
        IsResourceOf store.now.content doc.now (resource_of f)) }
    ensures found_within_levels { IfOk result (λ f. IsWithinLevels f) }
{
    match &doc.home {
        Home::Global => global_document(alloc, store, doc),
        Home::User(_) => Ok(stored_document(store, doc)),
    }
}
