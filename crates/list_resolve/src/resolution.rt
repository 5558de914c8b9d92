//! Resolves references.
ghost use Rattle.std.specs.Prelude.{◌≡◌, ◌≤◌, option_and_then, option_map, IfOk, IfSome, Ok, Some};
ghost use Rattle.xml_names.specs.declared.limits.TheConstants.{MAX_LEVELS};
ghost use Rattle.xml_tree.specs.Tree.{height};
ghost use Rattle.doc_names.specs.NameEquality.{same_home};
ghost use Rattle.node_select.specs.Selection.{selected_element_path};
ghost use Rattle.xcap_uri.specs.Targets.{is_element_end};
ghost use Rattle.xcap_uri.specs.declared.target.Target.TheVariants.{Node};
ghost use Rattle.list_resolve.specs.Resolution.{is_own_document, resolve_at, resolve_target};
ghost use Rattle.list_resolve.specs.inner.SkippedElements.{resolve_in_context};
ghost use Rattle.list_resolve.specs.inner.SkippedElements.{scoped_element_at};
ghost use Rattle.list_resolve.specs.inner.Views.{context_view, resolved_view, scoped_element_view};

use crate::document_place::Place;
use crate::reference::{Reference, ReferenceTarget};
use crate::scoped_element::{ScopedElement, list_element};
use doc_names::{Auid, DocId, Home};
use node_select::{End, Selector, select};
use std::alloc::{AllocError, Global};
use store_core::Store;
use xcap_uri::{Root, Target, read_target};
use xml_names::{ReadError, Text};
use xml_tree::{Element, Path};

/// The context in which references are resolved: the stored documents, the XCAP root, and the home
/// whose documents they may lead to.
#[derive(Drop)]
pub(crate) struct ResolutionContext<'a> {
    pub(crate) alloc: Global,
    pub(crate) store: &'a Store,
    pub(crate) root: &'a Root,
    pub(crate) home: &'a Home,
}

/// An element that a reference leads to, and its place.
#[derive(Drop)]
pub(crate) struct ResolvedReference<'a> {
    pub(crate) place: Place,
    pub(crate) scoped_element: ScopedElement<'a>,
}

// Whether two homes are equal.
fn is_same_home(a: &Home, b: &Home) -> bool
    ensures exact { result ≡ same_home a.now b.now }
{
    match (a, b) {
        (Home::Global, Home::Global) => true,
        (Home::Global, Home::User(_)) => false,
        (Home::User(_), Home::Global) => false,
        (Home::User(a), Home::User(b)) => a == b,
    }
}

// Whether the id names a document of lists of this home.
fn is_own_document(home: &Home, doc: &DocId) -> bool
    ensures exact { result ≡ is_own_document home.now doc.now }
{
    match doc.auid {
        Auid::ResourceLists => is_same_home(&doc.home, home),
        Auid::RlsServices => false,
        Auid::XcapCaps => false,
    }
}

// Whether a selector selects an element.
fn is_element_end(end: &End) -> bool
    ensures exact { result ≡ is_element_end end.now }
{
    match end {
        End::Element => true,
        End::Attribute { .. } => false,
        End::Namespaces => false,
    }
}

// The element at a path of a document with this name, if it is of the expected kind.
fn resolve_at<'a>(
    wanted: ReferenceTarget,
    name: Text,
    root: &'a Element,
    path: Path,
) -> Option<ResolvedReference<'a>>
    ensures exact { option_map resolved_view result ≡ resolve_at wanted name root.now path }
    ensures is_no_higher { IfSome result
        (λ l. height l.scoped_element.element.now ≤ height root.now) }
{
    let scoped_element = list_element(root, &path)?;
    if !wanted.admits(scoped_element.kind) {
        return None;
    }
    Some(ResolvedReference {
        place: Place { name, path },
        scoped_element,
    })
}

// The element that a selector selects in a document with this name, if it is of the expected kind.
fn resolve_selector<'a>(
    alloc: Global,
    wanted: ReferenceTarget,
    name: Text,
    selector: &Selector,
    root: &'a Element,
) -> Option<ResolvedReference<'a>>
    requires { height root.now ≤ MAX_LEVELS }
    ensures exact { option_map resolved_view result
        ≡ option_and_then (resolve_at wanted name root.now)
        (selected_element_path selector.now.steps root.now) }
    ensures within_levels { IfSome result (λ l. height l.scoped_element.element.now ≤ MAX_LEVELS) }
{
    let path = select(alloc, root, selector)?;
    resolve_at(wanted, name, root, path)
}

// Where a target that is a node leads.
fn resolve_node<'a>(
    ground: &ResolutionContext<'a>,
    wanted: ReferenceTarget,
    doc: DocId,
    selector: &Selector,
) -> Option<ResolvedReference<'a>>
    ensures exact { option_map resolved_view result
        ≡ resolve_target (context_view ground.now) wanted (Ok (Node doc selector.now)) }
    ensures within_levels { IfSome result (λ l. height l.scoped_element.element.now ≤ MAX_LEVELS) }
{
    if !(is_own_document(ground.home, &doc) && is_element_end(&selector.end)) {
        return None;
    }
    let (root, _) = ground.store.get(&doc)?;
    resolve_selector(ground.alloc, wanted, doc.name, selector, root)
}

// Where a target leads: if anywhere, it is a node.
fn resolve_target<'a>(
    ground: &ResolutionContext<'a>,
    wanted: ReferenceTarget,
    target: Target,
) -> Option<ResolvedReference<'a>>
    ensures exact { option_map resolved_view result
        ≡ resolve_target (context_view ground.now) wanted (Ok target) }
    ensures within_levels { IfSome result (λ l. height l.scoped_element.element.now ≤ MAX_LEVELS) }
{
    let Target::Node(doc, selector) = target else {
        return None;
    };
    resolve_node(ground, wanted, doc, &selector)
}

/// Resolves a reference.
///
/// # Errors
/// `AllocError` when out of memory.
pub(crate) fn resolve_reference<'a>(
    ground: &ResolutionContext<'a>,
    reference: &Reference,
) -> Result<Option<ResolvedReference<'a>>, AllocError>
    ensures exact { IfOk result
        (λ found. option_map resolved_view found
        ≡ resolve_in_context (context_view ground.now) reference.now) }
    ensures within_levels { IfOk result
        (λ found. IfSome found (λ l. height l.scoped_element.element.now ≤ MAX_LEVELS)) }
    ensures reference_exists { IfOk result
        (λ found. IfSome found
        (λ l. scoped_element_at (context_view ground.now) l.place
        ≡ Some (scoped_element_view l.scoped_element))) }
{
    let target = reference.target.as_str().as_bytes();
    match read_target(ground.alloc, ground.root, target) {
        Ok(target) => Ok(resolve_target(ground, reference.wanted, target)),
        Err(ReadError::Fault(_)) => Ok(None),
        Err(ReadError::NoMemory) => Err(AllocError),
    }
}
