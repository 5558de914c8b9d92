//! The flat list of a service (RFC 4826, section 4).
ghost use Rattle.std.specs.Prelude.{◌≡◌, chars, false, length, option_and_then, option_map};
ghost use Rattle.std.specs.Str.{bytes_eq};
ghost use Rattle.std.specs.Option.{option_map_or};
ghost use Rattle.xml_names.specs.ReadErrors.{ResultSatisfies};
ghost use Rattle.usage_docs.specs.declared.schema_table.Key.TheVariants.{Uri};
ghost use Rattle.usage_docs.specs.KeyAttributes.{value_of};
ghost use Rattle.list_resolve.specs.FlatLists.{IsFlatList, flat_list_of, service_of};
ghost use Rattle.list_resolve.specs.FlatLists.{service_element};
ghost use Rattle.list_resolve.specs.Resolution.{stored_tree};
ghost use Rattle.list_resolve.specs.Walks.{walk};
ghost use Rattle.list_resolve.specs.inner.SkippedElements.{resolve_in_context};
ghost use Rattle.list_resolve.specs.inner.Views.{context_view, scoped_element_view};

use crate::fault::{FlatError, FlatFault};
use crate::resolution::ResolutionContext;
use crate::scoped_element::ScopedElement;
use crate::uri_collector::UriCollector;
use crate::visit_chain::VisitChain;
use crate::walk::walk_inside;
use doc_names::DocId;
use std::alloc::Global;
use store_core::Store;
use usage_docs::{ElementKind, Key, value_of};
use xcap_uri::Root;
use xml_names::{Attr, List, ReadError, Text};
use xml_tree::{Element, LinkedScope, Node};

/// The greatest number of elements of a chain.
const CHAIN_LIMIT: usize = 16;

// Whether two texts have the same characters.
fn is_same_text(a: &str, b: &str) -> bool
    ensures exact { result ≡ bytes_eq (chars a.now) (chars b.now) }
{
    a == b
}

// Whether an element with these attributes has this address.
fn has_address(uri: &str, attrs: &[Attr]) -> bool
    ensures exact { result
        ≡ option_map_or (λ own. bytes_eq own (chars uri.now)) (value_of Uri attrs.now) false }
{
    match value_of(Key::Uri, attrs) {
        None => false,
        Some(own) => is_same_text(own, uri),
    }
}

// A child of a root, if it is the service with this address.
fn service_element<'a>(
    root: &ScopedElement<'a>,
    uri: &str,
    child_element: &'a Element,
) -> Option<ScopedElement<'a>>
    requires { length root.now.scope ≡ 1 }
    ensures exact { option_map scoped_element_view result
        ≡ service_element (chars uri.now) (scoped_element_view root.now) child_element.now }
{
    if !has_address(uri, child_element.attrs()) {
        return None;
    }
    root.enter_child(child_element)
}

// The service with this address, if the document has one.
fn service_of<'a>(root: &'a Element, uri: &str) -> Option<ScopedElement<'a>>
    ensures exact { option_map scoped_element_view result ≡ service_of (chars uri.now) root.now }
{
    let scoped_element = ScopedElement::root(ElementKind::RlsServices, root);
    for node in root.nodes() {
        if let Node::Elem(child_element) = node {
            if let Some(service) = service_element(&scoped_element, uri, child_element) {
                return Some(service);
            }
        }
    }
    None
}

// The service with this address in a document, if both exist.
fn stored_service<'a>(store: &'a Store, doc: &DocId, uri: &str) -> Option<ScopedElement<'a>>
    ensures exact { option_map scoped_element_view result
        ≡ option_and_then (service_of (chars uri.now))
        (stored_tree store.now.content.documents doc.now) }
{
    let (root, _) = store.get(doc)?;
    service_of(root, uri)
}

// The flat list of a service.
fn flat_list_of(
    ground: &ResolutionContext<'_>,
    service: &ScopedElement<'_>,
) -> Result<List<Text>, FlatError>
    ensures flat_answer { ResultSatisfies
        (λ answer. answer ≡ flat_list_of
        (walk (resolve_in_context (context_view ground.now)) ground.now.root.now
        (scoped_element_view service.now))) result }
{
    let mut collector = UriCollector::new(ground.alloc);
    let scope = LinkedScope::from_scope(&service.scope);
    walk_inside(
        ground,
        CHAIN_LIMIT,
        &VisitChain::new(),
        service.kind,
        &scope,
        service.element,
        &mut collector,
    )?;
    let uris = collector.into_uris()?;
    Ok(uris)
}

/// The flat list of the service with this address in a document: the addresses of the entries of
/// its list, and of those that references lead to, each where it is first met.
///
/// # Errors
/// `NoService` exactly where the document isn't stored or has no service with this address,
/// `TooWide` exactly where the walk of the service meets more than `MARK_LIMIT` references;
/// `NoMemory` when out of memory.
pub fn flat_list(
    alloc: Global,
    store: &Store,
    root: &Root,
    doc: &DocId,
    service: &str,
) -> Result<List<Text>, ReadError<FlatFault>>
    ensures as_specified { ResultSatisfies
        (IsFlatList store.now.content root.now doc.now (chars service.now)) result }
{
    let ground = ResolutionContext {
        alloc,
        store,
        root,
        home: &doc.home,
    };
    match stored_service(store, doc, service) {
        None => Err(ReadError::Fault(FlatFault::NoService)),
        Some(service) => flat_list_of(&ground, &service),
    }
}
