//! The walk of a list, including the lists that references lead to (RFC 4826, sections 3.2 and
//! 4.2).
ghost use Rattle.std.specs.Prelude.{◌≡◌, ◌≤◌, ◌∷◌, [], Some, OnOk, if◌then◌else◌};
ghost use Rattle.std.specs.Option.{option_map_or};
ghost use Rattle.xml_names.specs.declared.limits.TheConstants.{MAX_LEVELS};
ghost use Rattle.xml_tree.specs.Tree.{height};
ghost use Rattle.usage_docs.specs.declared.schema_table.Key.TheVariants.{Uri};
ghost use Rattle.usage_docs.specs.declared.schema_table.ElementKind.TheVariants.{EntryList};
ghost use Rattle.usage_docs.specs.KeyAttributes.{value_of};
ghost use Rattle.list_resolve.specs.References.{reference_of};
ghost use Rattle.list_resolve.specs.ElementPlaces.{contains_place};
ghost use Rattle.list_resolve.specs.Walks.{address, walk_after_mark, kind_items, mark};
ghost use Rattle.list_resolve.specs.Walks.{scoped_element_items, content_items};
ghost use Rattle.list_resolve.specs.inner.ChildItems.{child_items};
ghost use Rattle.list_resolve.specs.inner.SkippedElements.{CollectsItems, IsFullyCollected};
ghost use Rattle.list_resolve.specs.inner.SkippedElements.{HasSoundPlaces};
ghost use Rattle.list_resolve.specs.inner.SkippedElements.{resolve_in_context};
ghost use Rattle.list_resolve.specs.inner.SkippedElements.{scoped_element_at};
ghost use Rattle.list_resolve.specs.inner.Views.{context_view, scoped_element_view};

use crate::document_place::Place;
use crate::fault::FlatError;
use crate::reference::{Reference, reference_of};
use crate::resolution::{ResolutionContext, ResolvedReference, resolve_reference};
use crate::uri_collector::UriCollector;
use crate::visit_chain::VisitChain;
use std::alloc::AllocError;
use usage_docs::{ElementKind, Key, kind_of, value_of};
use xml_names::{Attr, IndexedDecls};
use xml_tree::{Element, LinkedScope, Node};

// Collects the address of an entry with these attributes.
fn add_entry(
    ground: &ResolutionContext<'_>,
    attrs: &[Attr],
    collector: &mut UriCollector,
) -> Result<(), FlatError>
    requires is_sound { HasSoundPlaces (context_view ground.now) collector.old }
    ensures gathers_address { CollectsItems (context_view ground.now)
        (option_map_or (λ uri. address uri ∷ []) (value_of Uri attrs.now) [])
        collector.old collector.new result }
{
    match value_of(Key::Uri, attrs) {
        None => Ok(()),
        Some(uri) => {
            collector.add_uri(uri)?;
            Ok(())
        }
    }
}

/// Collects what the children of an element of this kind give, in the scope inside it, where at
/// most `left` more elements may be on the chain.
///
/// # Errors
/// `TooWide` where there are too many references, `NoMemory` when out of memory.
#[cycle(walk)]
pub(crate) fn walk_inside(
    ground: &ResolutionContext<'_>,
    left: usize,
    chain: &VisitChain<'_>,
    row: ElementKind,
    scope: &LinkedScope<'_>,
    element: &Element,
    collector: &mut UriCollector,
) -> Result<(), FlatError>
    requires is_sound { HasSoundPlaces (context_view ground.now) collector.old }
    ensures gathers_walk { CollectsItems (context_view ground.now)
        (content_items
        (walk_after_mark (resolve_in_context (context_view ground.now)) ground.now.root.now left
        chain.now) ground.now.root.now row scope.now element.now.content)
        collector.old collector.new result }
{
    for node in element.nodes() {
        if let Node::Elem(child_element) = node {
            walk_child_element(ground, left, chain, row, scope, child_element, collector)?;
        }
    }
    Ok(())
}

// Collects what a child of an element of this kind gives, in the scope around it.
#[cycle(walk)]
fn walk_child_element(
    ground: &ResolutionContext<'_>,
    left: usize,
    chain: &VisitChain<'_>,
    row: ElementKind,
    scope: &LinkedScope<'_>,
    child_element: &Element,
    collector: &mut UriCollector,
) -> Result<(), FlatError>
    requires is_sound { HasSoundPlaces (context_view ground.now) collector.old }
    ensures gathers_child { CollectsItems (context_view ground.now)
        (child_items (walk_after_mark
        (resolve_in_context (context_view ground.now)) ground.now.root.now left chain.now)
        ground.now.root.now row scope.now child_element.now)
        collector.old collector.new result }
{
    let declared = IndexedDecls::with_index(ground.alloc, child_element.decls())?;
    let inside = (&*scope).inside(&declared);
    match kind_of(row, &inside, child_element.name()) {
        None => Ok(()),
        Some(kind) => walk_element(ground, left, chain, kind, &inside, child_element, collector),
    }
}

// Collects what an element of this kind gives, in the scope inside it.
#[cycle(walk)]
fn walk_element(
    ground: &ResolutionContext<'_>,
    left: usize,
    chain: &VisitChain<'_>,
    kind: ElementKind,
    scope: &LinkedScope<'_>,
    element: &Element,
    collector: &mut UriCollector,
) -> Result<(), FlatError>
    requires is_sound { HasSoundPlaces (context_view ground.now) collector.old }
    ensures gathers_element { CollectsItems (context_view ground.now)
        (kind_items (walk_after_mark
        (resolve_in_context (context_view ground.now)) ground.now.root.now left chain.now)
        ground.now.root.now kind element.now
        (content_items
        (walk_after_mark (resolve_in_context (context_view ground.now)) ground.now.root.now left
        chain.now) ground.now.root.now EntryList scope.now element.now.content))
        collector.old collector.new result }
{
    match kind {
        ElementKind::Entry => add_entry(ground, element.attrs(), collector),
        ElementKind::EntryList => walk_inside(
            ground,
            left,
            chain,
            ElementKind::EntryList,
            scope,
            element,
            collector,
        ),
        ElementKind::EntryRef | ElementKind::External | ElementKind::ResourceList => {
            walk_reference(ground, left, chain, kind, element, collector)
        }
        ElementKind::ResourceLists
        | ElementKind::DisplayName
        | ElementKind::RlsServices
        | ElementKind::Service
        | ElementKind::Packages
        | ElementKind::Package => Ok(()),
    }
}

// Collects the mark of a reference, and what the reference leads to.
#[cycle(walk)]
fn walk_reference(
    ground: &ResolutionContext<'_>,
    left: usize,
    chain: &VisitChain<'_>,
    kind: ElementKind,
    element: &Element,
    collector: &mut UriCollector,
) -> Result<(), FlatError>
    requires is_sound { HasSoundPlaces (context_view ground.now) collector.old }
    ensures gathers_reference { CollectsItems (context_view ground.now)
        (option_map_or (λ r. mark ∷ walk_after_mark
        (resolve_in_context (context_view ground.now)) ground.now.root.now left chain.now r)
        (reference_of ground.now.root.now kind element.now.attrs element.now.content) [])
        collector.old collector.new result }
{
    let Some(reference) = reference_of(ground.alloc, ground.root, kind, element)? else {
        return Ok(());
    };
    collector.add_mark()?;
    walk_after_mark(ground, left, chain, &reference, collector)
}

// Collects what a reference leads to, after its mark.
#[cycle(walk)]
fn walk_after_mark(
    ground: &ResolutionContext<'_>,
    left: usize,
    chain: &VisitChain<'_>,
    reference: &Reference,
    collector: &mut UriCollector,
) -> Result<(), FlatError>
    requires is_sound { HasSoundPlaces (context_view ground.now) collector.old }
    ensures gathers_reference { CollectsItems (context_view ground.now)
        (walk_after_mark (resolve_in_context (context_view ground.now)) ground.now.root.now left
        chain.now reference.now)
        collector.old collector.new result }
{
    if left == 0 {
        return Ok(());
    }
    match resolve_reference(ground, reference)? {
        None => Ok(()),
        Some(lead) => walk_resolved_reference(ground, left - 1, chain, lead, collector),
    }
}

// Collects the addresses of a referenced element, unless it is on the chain.
#[cycle(walk)]
fn walk_resolved_reference(
    ground: &ResolutionContext<'_>,
    left: usize,
    chain: &VisitChain<'_>,
    lead: ResolvedReference<'_>,
    collector: &mut UriCollector,
) -> Result<(), FlatError>
    requires height_bounded { height lead.scoped_element.element.now ≤ MAX_LEVELS }
    requires place_exists { scoped_element_at (context_view ground.now) lead.place
        ≡ Some (scoped_element_view lead.scoped_element) }
    requires is_sound { HasSoundPlaces (context_view ground.now) collector.old }
    ensures gathers_lead { CollectsItems (context_view ground.now)
        (if contains_place chain.now lead.entry.place then [] else
        scoped_element_items
        (walk_after_mark (resolve_in_context (context_view ground.now)) ground.now.root.now left
        (lead.entry.place ∷ chain.now)) ground.now.root.now
        (scoped_element_view lead.entry.scoped_element))
        collector.old collector.new result }
{
    if chain.has(&lead.place) {
        return Ok(());
    }
    walk_unless_passed(ground, left, chain, lead, collector)
}

// Collects what an element that isn't on the chain gives, unless it has no references and was
// collected before.
#[cycle(walk)]
fn walk_unless_passed(
    ground: &ResolutionContext<'_>,
    left: usize,
    chain: &VisitChain<'_>,
    lead: ResolvedReference<'_>,
    collector: &mut UriCollector,
) -> Result<(), FlatError>
    requires height_bounded { height lead.scoped_element.element.now ≤ MAX_LEVELS }
    requires place_exists { scoped_element_at (context_view ground.now) lead.place
        ≡ Some (scoped_element_view lead.scoped_element) }
    requires is_sound { HasSoundPlaces (context_view ground.now) collector.old }
    ensures gathers_element { CollectsItems (context_view ground.now)
        (scoped_element_items
        (walk_after_mark (resolve_in_context (context_view ground.now)) ground.now.root.now left
        (lead.entry.place ∷ chain.now)) ground.now.root.now
        (scoped_element_view lead.entry.scoped_element))
        collector.old collector.new result }
{
    if collector.has_passed(&lead.place) {
        return Ok(());
    }
    let marks = collector.marks();
    walk_with_place(ground, left, chain, &lead, collector)?;
    record_if_unmarked(ground, marks, lead.place, collector)?;
    Ok(())
}

// Collects what an element gives, with its place on the chain.
#[cycle(walk)]
fn walk_with_place(
    ground: &ResolutionContext<'_>,
    left: usize,
    chain: &VisitChain<'_>,
    lead: &ResolvedReference<'_>,
    collector: &mut UriCollector,
) -> Result<(), FlatError>
    requires height_bounded { height lead.now.scoped_element.element.now ≤ MAX_LEVELS }
    requires is_sound { HasSoundPlaces (context_view ground.now) collector.old }
    ensures gathers_element { CollectsItems (context_view ground.now)
        (scoped_element_items
        (walk_after_mark (resolve_in_context (context_view ground.now)) ground.now.root.now left
        (lead.now.place ∷ chain.now)) ground.now.root.now
        (scoped_element_view lead.now.scoped_element))
        collector.old collector.new result }
{
    let longer = (&*chain).with(&lead.place);
    let scope = LinkedScope::from_scope(&lead.scoped_element.scope);
    walk_element(
        ground,
        left,
        &longer,
        lead.scoped_element.kind,
        &scope,
        lead.scoped_element.element,
        collector,
    )
}

// Records the place of a collected element, if no reference was counted since.
fn record_if_unmarked(
    ground: &ResolutionContext<'_>,
    marks: usize,
    place: Place,
    collector: &mut UriCollector,
) -> Result<(), AllocError>
    requires passed { collector.old.tally.marks ≡ marks
        → IsFullyCollected (context_view ground.now) collector.old.tally.uris place }
    requires is_sound { HasSoundPlaces (context_view ground.now) collector.old }
    ensures same_tally { OnOk result (collector.new.tally ≡ collector.old.tally) }
    ensures stays_sound { OnOk result (HasSoundPlaces (context_view ground.now) collector.new) }
{
    let _ground = ground;
    if collector.marks() == marks {
        collector.record_passed(place)?;
    }
    Ok(())
}
