//! Children by numbers, checked from left to right (RFC 4826, sections 3.2 and 4.2).
ghost use Rattle.std.specs.Prelude.{◌≡◌, chars, if◌then◌else◌};
ghost use Rattle.usage_docs.specs.SchemaTable.{foreign, stray, is_foreign, kind_of};
ghost use Rattle.usage_docs.specs.readers.ContentParts.{part_of_kind, foreign_part, single_parts};
ghost use Rattle.usage_docs.specs.readers.ContentParts.{needs_first, may_follow, part_of_class};
ghost use Rattle.usage_docs.specs.readers.ContentParts.{part_of};

use crate::schema_table::{ElementKind, element_namespace, is_foreign, kind_by_name};
use xml_names::Name;
use xml_tree::LinkedScope;

// The part of a child of some kind.
#[tactic(auto, unfolding(crate::specs::readers::ContentParts::part_of_kind))]
fn part_of_kind(row: ElementKind, kind: ElementKind) -> u8
    ensures exact { result ≡ part_of_kind row kind }
{
    match (row, kind) {
        (ElementKind::ResourceLists, ElementKind::EntryList) => 1,
        (ElementKind::EntryList, ElementKind::DisplayName) => 1,
        (ElementKind::EntryList, ElementKind::EntryList) => 2,
        (ElementKind::EntryList, ElementKind::External) => 2,
        (ElementKind::EntryList, ElementKind::Entry) => 2,
        (ElementKind::EntryList, ElementKind::EntryRef) => 2,
        (ElementKind::Entry, ElementKind::DisplayName) => 1,
        (ElementKind::EntryRef, ElementKind::DisplayName) => 1,
        (ElementKind::External, ElementKind::DisplayName) => 1,
        (ElementKind::RlsServices, ElementKind::Service) => 1,
        (ElementKind::Service, ElementKind::ResourceList) => 1,
        (ElementKind::Service, ElementKind::EntryList) => 1,
        (ElementKind::Service, ElementKind::Packages) => 2,
        (ElementKind::Packages, ElementKind::Package) => 1,
        _ => 0,
    }
}

// The part of the foreign elements.
#[tactic(auto, unfolding(crate::specs::readers::ContentParts::foreign_part))]
fn foreign_part(row: ElementKind) -> u8
    ensures exact { result ≡ foreign_part row }
{
    match row {
        ElementKind::EntryList | ElementKind::Service => 3,
        ElementKind::Entry | ElementKind::EntryRef | ElementKind::External => 2,
        ElementKind::Packages => 1,
        _ => 0,
    }
}

// How many of the first parts take at most one child.
#[tactic(auto, unfolding(crate::specs::readers::ContentParts::single_parts))]
fn single_parts(row: ElementKind) -> u8
    ensures exact { result ≡ single_parts row }
{
    match row {
        ElementKind::Service => 2,
        ElementKind::EntryList
        | ElementKind::Entry
        | ElementKind::EntryRef
        | ElementKind::External => 1,
        _ => 0,
    }
}

// Whether the first part is required.
#[tactic(auto, unfolding(crate::specs::readers::ContentParts::needs_first))]
fn needs_first(row: ElementKind) -> bool
    ensures exact { result ≡ needs_first row }
{
    matches!(row, ElementKind::Service)
}

/// Whether a child of the part `next` may come directly after one of the part `before`, in an
/// element of this kind. Parts count from 1; part 0 is before the first child, the part `END`
/// after the last one. Does not allocate.
#[tactic(auto, unfolding(crate::specs::readers::ContentParts::may_follow))]
pub fn may_follow(row: ElementKind, before: u8, next: u8) -> bool
    ensures exact { result ≡ may_follow row before next }
{
    let in_order = before < next || (before == next && single_parts(row) < next);
    let passed_over = needs_first(row) && before == 0 && 1 < next;
    in_order && !passed_over
}

/// The part after the last child.
pub const END: u8 = 4;

/// What a child is in its parent.
#[derive(Clone, Copy, Drop)]
pub(crate) struct Placed {
    /// The part that it belongs to, counted from 1; 0 if it isn't allowed.
    pub part: u8,
    /// Its kind, if it has one.
    pub kind: Option<ElementKind>,
}

/// The part and the kind of a child, by the kind of its parent and the scope that ends with its
/// own declarations. Does not allocate.
#[tactic(auto, unfolding(crate::specs::readers::ContentParts::part_of, crate::specs::SchemaTable::child_class_of, crate::specs::SchemaTable::kind_of))]
pub(crate) fn find_placement(row: ElementKind, scope: &LinkedScope<'_>, name: &Name) -> Placed
    ensures child_part { result.part ≡ part_of row scope.now name.now }
    ensures child_kind { result.kind ≡ kind_of row scope.now name.now }
{
    let space = element_namespace(scope, name);
    match kind_by_name(row, space, &name.local) {
        Some(kind) => Placed {
            part: part_of_kind(row, kind),
            kind: Some(kind),
        },
        None => Placed {
            part: part_without_kind(row, space),
            kind: None,
        },
    }
}

/// The part that a child belongs to, counted from 1; 0 if it isn't allowed. Does not allocate.
pub fn part_of(row: ElementKind, scope: &LinkedScope<'_>, name: &Name) -> u8
    ensures child_part { result ≡ part_of row scope.now name.now }
{
    find_placement(row, scope, name).part
}

// The part of a child that has no kind.
fn part_without_kind(row: ElementKind, space: &str) -> u8
    ensures exact { result
        ≡ part_of_class row (if is_foreign row (chars space.now) then foreign else stray) }
{
    if is_foreign(row, space) {
        foreign_part(row)
    } else {
        0
    }
}
