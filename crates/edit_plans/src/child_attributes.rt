//! Whether a child may have its attributes changed, decided from the parent alone: the conditions
//! on its new start tag (RFC 4825, sections 8.2.4 and 8.4).
ghost use Rattle.std.specs.Prelude.{◌≡◌, ◌↔◌, Some, IsTrue, option_map};
ghost use Rattle.xml_tree.specs.TreeScopes.{inside};
ghost use Rattle.std.specs.List.{find};
ghost use Rattle.std.specs.Option.{option_copied};
ghost use Rattle.node_select.specs.Selection.{is_attr_named};
ghost use Rattle.edit_rules.specs.StartTags.{HasFormedAttrs, AreAttrsAllowed, are_attrs_formed};
ghost use Rattle.edit_plans.specs.inner.ChildChangeResults.{FitsWithinLevels, IsFoundInTag};
ghost use Rattle.edit_plans.specs.inner.ChildChangeResults.{IsNewTagResult, IsSelectedChild};
ghost use Rattle.edit_plans.specs.inner.ChildChangeResults.{not_found_refusal, parent_context};

use crate::insert_child::check_insertion;
use crate::parent::Parent;
use edit_rules::EditRefusal;
use node_select::{Step, find_attr_in};
use std::alloc::Global;
use usage_docs::{ElementKind, Fault, are_attrs_allowed, are_references_formed, kind_of};
use xml_names::{Text, index_decls};
use xml_tree::{Element, LinkedScope};

/// An attribute that a selector names, and how it is to be found afterwards: with this value, or
/// not at all.
#[derive(Drop)]
pub(crate) struct AttributeEdit<'a> {
    pub(crate) uri: &'a Text,
    pub(crate) local: &'a Text,
    pub(crate) value: Option<&'a Text>,
}

impl<'a> AttributeEdit<'a> {
    /// An attribute to be found with this value.
    pub(crate) fn with_value(uri: &'a Text, local: &'a Text, value: &'a Text) -> AttributeEdit<'a>
        ensures given_uri { result.uri.now ≡ uri.now }
        ensures given_local { result.local.now ≡ local.now }
        ensures given_value { option_copied result.value ≡ Some value.now }
    {
        AttributeEdit {
            uri,
            local,
            value: Some(value),
        }
    }
}

// The value of an attribute of an element, in the scope around it.
fn value_of<'a>(
    alloc: Global,
    scope: &LinkedScope<'_>,
    tag: &'a Element,
    sought: &AttributeEdit<'_>,
) -> Option<&'a Text>
    ensures exact { option_copied result
        ≡ option_map (λ a. a.value)
        (find (is_attr_named (inside scope.now tag.now) sought.now.uri.now sought.now.local.now)
        tag.now.attrs) }
{
    let declared = index_decls(alloc, tag.decls());
    let inside = (&*scope).inside(&declared);
    match find_attr_in(
        &inside,
        tag.attrs(),
        sought.uri.as_str(),
        sought.local.as_str(),
    ) {
        Some(attr) => Some(&attr.value),
        None => None,
    }
}

// Whether the value is the expected one, or absent where none is expected.
fn is_wanted(value: Option<&Text>, wanted: Option<&Text>) -> bool
    ensures exact { IsTrue result ↔ (option_copied value.entry ≡ option_copied wanted.entry) }
{
    match value {
        None => wanted.is_none(),
        Some(value) => match wanted {
            None => false,
            Some(wanted) => value.same(wanted),
        },
    }
}

/// Whether the attribute is found in a child with this start tag, which the step tests, with the
/// expected value, or not at all where none is expected.
pub(crate) fn is_found_in(
    alloc: Global,
    scope: &LinkedScope<'_>,
    step: &Step,
    tag: &Element,
    sought: &AttributeEdit<'_>,
) -> bool
    ensures exact { IsTrue result ↔ IsFoundInTag scope.now step.now tag.now sought.now }
{
    if !step.matches_test(alloc, scope, tag) {
        return is_wanted(None, sought.value);
    }
    let value = value_of(alloc, scope, tag, sought);
    is_wanted(value, sought.value)
}

/// The refusal where the attribute isn't found as it should be.
pub(crate) fn not_found_refusal(wanted: Option<&Text>) -> EditRefusal
    ensures exact { result ≡ not_found_refusal (option_copied wanted.entry) }
{
    match wanted {
        None => EditRefusal::CannotDelete,
        Some(_) => EditRefusal::CannotInsert,
    }
}

// Whether the attributes are valid for the child's element kind, if its parent has a kind and it
// has one.
fn are_attrs_allowed_in(alloc: Global, parent: &Parent<'_>, tag: &Element) -> bool
    ensures exact { IsTrue result
        ↔ AreAttrsAllowed parent.now.kind parent.now.scope.now tag.now }
{
    let Some(row) = parent.kind else {
        return true;
    };
    let declared = index_decls(alloc, tag.decls());
    let inside = (&*parent.scope).inside(&declared);
    match kind_of(row, &inside, tag.name()) {
        None => true,
        Some(kind) => are_attrs_allowed(kind, &inside, tag.attrs()),
    }
}

// Whether the reference among the attributes of an element of this kind has its form.
fn are_attrs_formed(kind: ElementKind, tag: &Element) -> bool
    ensures exact { result ≡ are_attrs_formed kind tag.now.attrs }
{
    match kind {
        ElementKind::ResourceList => true,
        _ => are_references_formed(kind, tag),
    }
}

// Whether the child's reference has its form, if its parent has an element kind and it has one.
fn attrs_formed_in(alloc: Global, parent: &Parent<'_>, tag: &Element) -> bool
    ensures exact { IsTrue result
        ↔ HasFormedAttrs parent.now.kind parent.now.scope.now tag.now }
{
    let Some(row) = parent.kind else {
        return true;
    };
    let declared = index_decls(alloc, tag.decls());
    let inside = (&*parent.scope).inside(&declared);
    match kind_of(row, &inside, tag.name()) {
        None => true,
        Some(kind) => are_attrs_formed(kind, tag),
    }
}

/// The result for a child with this start tag, which the step selects. `CannotInsert` or
/// `CannotDelete` where the attribute wouldn't be found as it should be, `Faulty` where it isn't
/// allowed or is required; then as `check_insertion`.
pub(crate) fn attribute_change_in_parent(
    alloc: Global,
    parent: &Parent<'_>,
    step: &Step,
    child: usize,
    tag: &Element,
    sought: &AttributeEdit<'_>,
) -> Result<usize, EditRefusal>
    requires selected { IsSelectedChild (parent_context parent.now step.now) child }
    requires room_left { FitsWithinLevels parent.now.path.now tag.now }
    ensures new_tag_plan { IsNewTagResult (parent_context parent.now step.now)
        (record { child = child; tag = tag.now; sought = sought.now }) parent.now.path.now result }
{
    if !is_found_in(alloc, parent.scope, step, tag, sought) {
        return Err(not_found_refusal(sought.value));
    }
    if !are_attrs_allowed_in(alloc, parent, tag) {
        return Err(EditRefusal::Faulty(Fault::Invalid));
    }
    let formed = attrs_formed_in(alloc, parent, tag);
    check_insertion(alloc, parent, Some(child), tag, child, formed)
}
