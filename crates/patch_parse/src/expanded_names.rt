//! Names that mean the same in two scopes (RFC 5261, section 4.2.3; Namespaces in XML 1.0, section
//! 6).
ghost use Rattle.std.specs.Prelude.{◌≡◌, option_map, chars};
ghost use Rattle.std.specs.List.{list_all, list_any};
ghost use Rattle.xml_names.specs.ExpandedNames.{attr_name, element_name, same_expanded, same_uri};
ghost use Rattle.patch_rules.specs.PatchOperations.{names_agree};
ghost use Rattle.patch_parse.specs.inner.OperationContents.{element_names_agree, node_names_agree};

use crate::diff_names::resolve_prefix;
use node_select::same_text;
use std::alloc::Global;
use xml_names::{Attr, LocalName, Name, index_decls};
use xml_tree::{Element, LinkedScope, Node, Scope};

// Whether two URIs, of which either may be absent, are equal.
fn same_uri(a: Option<&str>, b: Option<&str>) -> bool
    ensures exact { result
        ≡ same_uri (option_map (λ x. chars x.now) a.entry) (option_map (λ x. chars x.now) b.entry) }
{
    match a {
        None => match b {
            None => true,
            Some(_) => false,
        },
        Some(a) => match b {
            None => false,
            Some(b) => same_text(a, b),
        },
    }
}

// Whether the name of an element means the same in both scopes.
fn same_element_name(c: &LinkedScope<'_>, d: &LinkedScope<'_>, name: &Name) -> bool
    ensures exact { result
        ≡ same_expanded (element_name c.now name.now) (element_name d.now name.now) }
{
    same_uri(c.resolve(&name.prefix), d.resolve(&name.prefix))
}

// Whether the name of an attribute means the same in both scopes.
fn same_attr_name(c: &LinkedScope<'_>, d: &LinkedScope<'_>, name: &Name) -> bool
    ensures exact { result ≡ same_expanded (attr_name c.now name.now) (attr_name d.now name.now) }
{
    if name.has_no_prefix() {
        return true;
    }
    same_element_name(c, d, name)
}

fn same_attr_names(c: &LinkedScope<'_>, d: &LinkedScope<'_>, attrs: &[Attr]) -> bool
    ensures exact { result
        ≡ list_all (λ a. same_expanded (attr_name c.now a.name) (attr_name d.now a.name))
        attrs.now }
{
    attrs.iter().all(|attr| same_attr_name(c, d, &attr.name))
}

// Whether each name in an element means the same in both scopes around it, which are extended by
// the same declarations.
#[cycle(alike)]
fn element_names_agree(
    alloc: Global,
    c: &LinkedScope<'_>,
    d: &LinkedScope<'_>,
    element: &Element,
) -> bool
    ensures exact { result ≡ element_names_agree c.now d.now element.now }
{
    let declared = index_decls(alloc, element.decls());
    let here = (&*c).inside(&declared);
    let there = (&*d).inside(&declared);
    if !same_element_name(&here, &there, element.name()) {
        return false;
    }
    if !same_attr_names(&here, &there, element.attrs()) {
        return false;
    }
    content_names_agree(alloc, &here, &there, element)
}

// Whether each name in an element's content means the same in both scopes at the element.
#[cycle(alike)]
fn content_names_agree(
    alloc: Global,
    c: &LinkedScope<'_>,
    d: &LinkedScope<'_>,
    element: &Element,
) -> bool
    ensures exact { result ≡ names_agree c.now d.now element.now.content }
{
    for node in element.nodes() {
        if !node_names_agree(alloc, c, d, node) {
            return false;
        }
    }
    true
}

// Whether each name in a node means the same in both scopes.
#[cycle(alike)]
fn node_names_agree(alloc: Global, c: &LinkedScope<'_>, d: &LinkedScope<'_>, node: &Node) -> bool
    ensures exact { result ≡ node_names_agree c.now d.now node.now }
{
    match node {
        Node::Elem(child_element) => element_names_agree(alloc, c, d, child_element),
        Node::Chars(_) => true,
        Node::Comment(_) => true,
    }
}

/// Whether each name in an operation means the same in the scope at it and in another.
pub fn names_agree(alloc: Global, here: &Scope<'_>, there: &Scope<'_>, operation: &Element) -> bool
    ensures exact { result ≡ names_agree here.now there.now operation.now.content }
{
    let here = LinkedScope::from_scope(here);
    let there = LinkedScope::from_scope(there);
    content_names_agree(alloc, &here, &there, operation)
}

// ---- the name of a new attribute

// The URI of an attribute's name, if it has one.
fn attr_uri<'a>(scope: &Scope<'a>, name: &Name) -> Option<&'a str>
    ensures exact { option_map (λ x. chars x.now) result ≡ (attr_name scope.now name.now).uri }
{
    if name.has_no_prefix() {
        return None;
    }
    resolve_prefix(scope, &name.prefix)
}

/// Whether the name of an attribute means the same in two scopes.
pub fn attr_names_agree(here: &Scope<'_>, there: &Scope<'_>, name: &Name) -> bool
    ensures exact { result
        ≡ same_expanded (attr_name here.now name.now) (attr_name there.now name.now) }
{
    same_uri(attr_uri(here, name), attr_uri(there, name))
}

// Whether an attribute has this URI and this local name, in the scope at it.
fn has_expanded_name(scope: &Scope<'_>, attr: &Attr, uri: Option<&str>, local: &LocalName) -> bool
    ensures exact { result
        ≡ same_expanded (attr_name scope.now attr.now.name)
        (record { uri = option_map (λ x. chars x.now) uri.entry; local = local.now }) }
{
    same_uri(attr_uri(scope, &attr.name), uri) && attr.name.local == *local
}

/// Whether one of an element's attributes, in the scope at it, is the one that a name means in
/// another.
pub fn has_attr(here: &Scope<'_>, there: &Scope<'_>, attrs: &[Attr], name: &Name) -> bool
    ensures exact { result
        ≡ list_any (λ a. same_expanded (attr_name there.now a.name) (attr_name here.now name.now))
        attrs.now }
{
    let uri = attr_uri(here, name);
    attrs
        .iter()
        .any(|attr| has_expanded_name(there, attr, uri, &name.local))
}
