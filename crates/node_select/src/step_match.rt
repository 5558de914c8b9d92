//! Which child of an element a step selects, and which attribute a name means.
ghost use Rattle.std.specs.Prelude.{◌≡◌, ◌↔◌, ◌<◌, ◌+◌, ◌++◌, ◌^◌, ◌&&◌, ℕ, [], IsTrue, map};
ghost use Rattle.std.specs.Prelude.{chars, position, cond, None, Some};
ghost use Rattle.xml_tree.specs.TreeScopes.{inside};
ghost use Rattle.std.specs.List.{find, list_any};
ghost use Rattle.std.specs.Option.{option_copied};
ghost use Rattle.std.specs.Str.{bytes_eq};
ghost use Rattle.xml_tree.specs.Tree.{child_elements_of};
ghost use Rattle.xml_names.specs.ExpandedNames.{element_name, attr_name};
ghost use Rattle.node_select.specs.StepSelection.{is_at_position, child_matches};
ghost use Rattle.node_select.specs.Names.{has_expanded_name, uri_or_empty};
ghost use Rattle.node_select.specs.Selection.{some_attr_passes, passes_attr_test, is_attr_named};
ghost use Rattle.node_select.specs.Selection.{is_named, is_tested, step_tests};
ghost use Rattle.node_select.specs.Selection.{selected_child};

use crate::selector::{AttrTest, NameTest, Step};
use std::alloc::Global;
use xml_names::{Attr, Decl, IndexedDecls, Name, Text, index_decls};
use xml_tree::{Element, LinkedScope, Node, Scope};

/// The number of the first attribute of this namespace and local name, in the scope at the
/// element: None exactly when there is none. An attribute without prefix is in no namespace,
/// whose URI is empty. Only an index of declarations allocates, and the result is the same
/// without it.
pub fn find_attr(
    alloc: Global,
    element: &Element,
    scope: &Scope<'_>,
    uri: &str,
    local: &str,
) -> Option<usize>
    ensures exact { result
        ≡ position (is_attr_named scope.now (chars uri.now) (chars local.now)) element.now.attrs }
{
    find_attr_within(
        alloc,
        &LinkedScope::empty(),
        scope.lists(),
        element.attrs(),
        uri,
        local,
    )
}

// The number of the first attribute of this name, in a scope with more lists of declarations
// inside it.
fn find_attr_within(
    alloc: Global,
    scope: &LinkedScope<'_>,
    lists: &[&[Decl]],
    attrs: &[Attr],
    uri: &str,
    local: &str,
) -> Option<usize>
    ensures exact { result
        ≡ position (is_attr_named (scope.now ++ map (λ x. x.now) lists.now) (chars uri.now)
        (chars local.now)) attrs.now }
{
    let [list, lists @ ..] = lists else {
        return attr_index(scope, attrs, uri, local);
    };
    let declared = index_decls(alloc, list);
    find_attr_within(
        alloc,
        &(&*scope).inside(&declared),
        lists,
        attrs,
        uri,
        local,
    )
}

// The number of the first attribute of this name in a scope.
fn attr_index(scope: &LinkedScope<'_>, attrs: &[Attr], uri: &str, local: &str) -> Option<usize>
    ensures exact { result
        ≡ position (is_attr_named scope.now (chars uri.now) (chars local.now)) attrs.now }
{
    attrs
        .iter()
        .position(|attr| is_attr_named(scope, uri, local, attr))
}

// The URI of a name in no namespace.
pub(crate) fn empty_uri() -> &'static str
    ensures holds_no_characters { chars result.now ≡ [] }
{
    ""
}

/// Whether two texts have the same characters.
pub fn same_text(a: &str, b: &str) -> bool
    ensures exact { result ≡ bytes_eq (chars a.now) (chars b.now) }
    ensures equal_iff { IsTrue result ↔ (chars a.now ≡ chars b.now) }
{
    a == b
}

// The URI of an element's name, which is empty where it is in no namespace.
fn element_uri<'a>(scope: &LinkedScope<'a>, name: &Name) -> &'a str
    ensures exact { chars result.now ≡ uri_or_empty (element_name scope.now name.now) }
{
    match scope.resolve(&name.prefix) {
        Some(uri) => uri,
        None => empty_uri(),
    }
}

// The URI of an attribute's name, which is empty where it is in no namespace.
fn attr_uri<'a>(scope: &LinkedScope<'a>, name: &Name) -> &'a str
    ensures exact { chars result.now ≡ uri_or_empty (attr_name scope.now name.now) }
{
    if name.has_no_prefix() {
        return empty_uri();
    }
    element_uri(scope, name)
}

// Whether an attribute has this name.
fn is_attr_named(scope: &LinkedScope<'_>, uri: &str, local: &str, attr: &Attr) -> bool
    ensures exact { result ≡ is_attr_named scope.now (chars uri.now) (chars local.now) attr.now }
{
    attr.name.local.is(local) && same_text(attr_uri(scope, &attr.name), uri)
}

// Whether an attribute passes a test.
fn passes_attr_test(scope: &LinkedScope<'_>, test: &AttrTest, attr: &Attr) -> bool
    ensures exact { result ≡ passes_attr_test scope.now test.now attr.now }
{
    attr.value.is(test.value.as_str())
        && is_attr_named(scope, test.uri.as_str(), test.local.as_str(), attr)
}

// Whether an element has this name, in the scope around it.
fn has_expanded_name(
    alloc: Global,
    scope: &LinkedScope<'_>,
    uri: &Text,
    local: &Text,
    child_element: &Element,
) -> bool
    ensures exact { result
        ≡ has_expanded_name uri.now local.now
        (element_name (inside scope.now child_element.now) child_element.now.name) }
{
    let declared = IndexedDecls::new(alloc, child_element.decls());
    let inside = (&*scope).inside(&declared);
    child_element.name().local.is(local.as_str())
        && same_text(element_uri(&inside, child_element.name()), uri.as_str())
}

// Whether an element passes a step's name test, in the scope around it.
fn is_named(alloc: Global, scope: &LinkedScope<'_>, step: &Step, child_element: &Element) -> bool
    ensures exact { result ≡ is_named scope.now step.now child_element.now }
{
    match &step.name {
        NameTest::Any => true,
        NameTest::Named { uri, local } => has_expanded_name(
            alloc,
            scope,
            uri,
            local,
            child_element,
        ),
    }
}

// Whether some attribute has the value of the test, whatever its name means.
fn has_value(test: &AttrTest, attrs: &[Attr]) -> bool
    ensures exact { result ≡ list_any (λ attr. bytes_eq attr.value test.now.value) attrs.now }
{
    attrs.iter().any(|attr| attr.value.is(test.value.as_str()))
}

// Whether an element has an attribute that passes the test, in the scope around it. Values are
// compared first, since few elements have the value.
#[tactic(auto, using(crate::proofs::ValueTests::none_valued))]
fn passes_test_inside(
    alloc: Global,
    scope: &LinkedScope<'_>,
    test: &AttrTest,
    child_element: &Element,
) -> bool
    ensures exact { result
        ≡ some_attr_passes (inside scope.now child_element.now)
        (Some test.now) child_element.now.attrs }
{
    if !has_value(test, child_element.attrs()) {
        return false;
    }
    let declared = index_decls(alloc, child_element.decls());
    some_attr_passes(&(&*scope).inside(&declared), test, child_element.attrs())
}

// Whether an element passes a step's attribute test, in the scope around it.
fn is_tested(alloc: Global, scope: &LinkedScope<'_>, step: &Step, child_element: &Element) -> bool
    ensures exact { result ≡ is_tested scope.now step.now child_element.now }
{
    match &step.test {
        None => true,
        Some(test) => passes_test_inside(alloc, scope, test, child_element),
    }
}

// Whether some attribute passes the test.
fn some_attr_passes(scope: &LinkedScope<'_>, test: &AttrTest, attrs: &[Attr]) -> bool
    ensures exact { result ≡ some_attr_passes scope.now (Some test.now) attrs.now }
{
    attrs.iter().any(|attr| passes_attr_test(scope, test, attr))
}

/// Whether a child with `before` matching names before it is at the position.
pub fn is_at_position(position: Option<u64>, before: u64) -> bool
    requires { before + 1 < 2 ^ 64 }
    ensures exact { result ≡ is_at_position position before }
{
    match position {
        None => true,
        Some(n) => before + 1 == n,
    }
}

// Whether an element with `before` siblings of its name before it matches a step, in the scope
// around it.
pub(crate) fn is_match(
    alloc: Global,
    scope: &LinkedScope<'_>,
    step: &Step,
    child_element: &Element,
    before: u64,
) -> bool
    requires { before + 1 < 2 ^ 64 }
    ensures exact { result
        ≡ child_matches (step_tests scope.now step.now) before (Some child_element.now) }
{
    is_match_if(
        alloc,
        scope,
        step,
        child_element,
        before,
        is_named(alloc, scope, step, child_element),
    )
}

// Whether an element matches a step, by whether it has the step's name.
fn is_match_if(
    alloc: Global,
    scope: &LinkedScope<'_>,
    step: &Step,
    child_element: &Element,
    before: u64,
    named: bool,
) -> bool
    requires { before + 1 < 2 ^ 64 }
    ensures exact { result
        ≡ (named && (is_at_position step.now.position before
        && is_tested scope.now step.now child_element.now)) }
{
    named && (is_at_position(step.position, before) && is_tested(alloc, scope, step, child_element))
}

fn add_match(before: u64, more: bool) -> u64
    requires { before + 1 < 2 ^ 64 }
    ensures counts_one_more { result ≡ before + cond more 1 0 }
{
    if more { before + 1 } else { before }
}

// The number of the one child element that a step matches, found by counting the children of the
// step's name.
fn select_by_position(
    alloc: Global,
    scope: &LinkedScope<'_>,
    step: &Step,
    element: &Element,
) -> Option<usize>
    ensures exact { result ≡ selected_child scope.now step.now (child_elements_of element.now) }
{
    let mut found = None;
    let mut before: u64 = 0;
    let mut i: usize = 0;
    for node in element.nodes() {
        if let Node::Elem(child_element) = node {
            let named = is_named(alloc, scope, step, child_element);
            if is_match_if(alloc, scope, step, child_element, before, named) {
                if found.is_some() {
                    return None;
                }
                found = Some(i);
            }
            before = add_match(before, named);
            i += 1;
        }
    }
    found
}

// Whether an element matches a step without a position, in the scope around it. The attribute is
// tested before the name, since it rules out most children.
fn is_match_without_position(
    alloc: Global,
    scope: &LinkedScope<'_>,
    step: &Step,
    child_element: &Element,
) -> bool
    requires { step.now.position ≡ None }
    ensures exact { (before : ℕ)
        → result
        ≡ child_matches (step_tests scope.now step.now) before (Some child_element.now) }
{
    is_tested(alloc, scope, step, child_element) && is_named(alloc, scope, step, child_element)
}

// The number of the one child element that a step without a position matches.
fn select_without_position(
    alloc: Global,
    scope: &LinkedScope<'_>,
    step: &Step,
    element: &Element,
) -> Option<usize>
    requires { step.now.position ≡ None }
    ensures exact { result ≡ selected_child scope.now step.now (child_elements_of element.now) }
{
    let mut found = None;
    let mut i: usize = 0;
    for node in element.nodes() {
        if let Node::Elem(child_element) = node {
            if is_match_without_position(alloc, scope, step, child_element) {
                if found.is_some() {
                    return None; // one of several is none
                }
                found = Some(i);
            }
            i += 1;
        }
    }
    found
}

// The number of the one child element that a step matches, in the scope at the element, in one
// pass over the children.
pub(crate) fn select_child(
    alloc: Global,
    scope: &LinkedScope<'_>,
    step: &Step,
    element: &Element,
) -> Option<usize>
    ensures exact { result ≡ selected_child scope.now step.now (child_elements_of element.now) }
{
    match step.position {
        None => select_without_position(alloc, scope, step, element),
        Some(_) => select_by_position(alloc, scope, step, element),
    }
}

impl Step {
    /// Whether a child has the name of the step, in the scope around it. Does not allocate.
    pub fn matches_name(
        &self,
        alloc: Global,
        scope: &LinkedScope<'_>,
        child_element: &Element,
    ) -> bool
        ensures passes_name_test { result ≡ is_named scope.now self.now child_element.now }
    {
        is_named(alloc, scope, self, child_element)
    }

    /// Whether a child has the attribute of the step's test, in the scope around it. Allocates as
    /// `find_attr` does.
    pub fn matches_test(
        &self,
        alloc: Global,
        scope: &LinkedScope<'_>,
        child_element: &Element,
    ) -> bool
        ensures passes_attribute_test { result ≡ is_tested scope.now self.now child_element.now }
    {
        is_tested(alloc, scope, self, child_element)
    }
}

/// The first attribute of this namespace and local name, in the scope that ends with the
/// declarations of their element. Does not allocate.
pub fn find_attr_in<'a>(
    scope: &LinkedScope<'_>,
    attrs: &'a [Attr],
    uri: &str,
    local: &str,
) -> Option<&'a Attr>
    ensures exact { option_copied result
        ≡ find (is_attr_named scope.now (chars uri.now) (chars local.now)) attrs.now }
{
    for attr in attrs {
        if is_attr_named(scope, uri, local, attr) {
            return Some(attr);
        }
    }
    None
}
