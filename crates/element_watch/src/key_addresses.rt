//! Whether a selector is a key address.
ghost use Rattle.std.specs.Prelude.{◌≡◌, ◌↔◌, ◌≤◌, ◌+◌, [], IsTrue, length};
ghost use Rattle.std.specs.Str.{bytes_eq};
ghost use Rattle.xml_tree.specs.declared.path.TheConstants.{PATH_LIMIT};
ghost use Rattle.xml_tree.specs.Tree.{child_elements_of};
ghost use Rattle.node_select.specs.Selection.{SelectsPath};
ghost use Rattle.usage_docs.specs.KeyAttributes.{attribute_name};
ghost use Rattle.edit_rules.specs.KeyAddresses.{IsKeyAddressOf};
ghost use Rattle.element_watch.specs.inner.KeyAddresses.{are_key_steps, are_key_steps_along};
ghost use Rattle.element_watch.specs.inner.KeyAddresses.{ends_in_element, has_name, is_name_alone};
ghost use Rattle.element_watch.specs.inner.KeyAddresses.{is_key_step, tests_key, tests_key_of};

use doc_names::Usage;
use node_select::{AttrTest, End, NameTest, Selector, Step};
use usage_docs::{ElementKind, Key, key_of, kind_of, root_kind};
use xml_names::Text;
use xml_tree::{Element, LinkedScope, Path, Scope};

// ---- one step

fn has_name(test: &NameTest) -> bool
    ensures exact { result ≡ has_name test.now }
{
    match test {
        NameTest::Any => false,
        NameTest::Named { .. } => true,
    }
}

fn is_name_alone(step: &Step) -> bool
    ensures exact { result ≡ is_name_alone step.now }
{
    has_name(&step.name) && step.position.is_none() && step.test.is_none()
}

fn is_key_name(text: &Text, key: Key) -> bool
    ensures exact { result ≡ bytes_eq text.now (attribute_name key) }
{
    text.is(key.attribute_name())
}

fn is_empty_text(text: &Text) -> bool
    ensures exact { result ≡ bytes_eq text.now [] }
{
    text.is("")
}

fn tests_key(key: Key, test: &AttrTest) -> bool
    ensures exact { result ≡ tests_key key test.now }
{
    is_empty_text(&test.uri) && is_key_name(&test.local, key)
}

fn tests_key_of(kind: ElementKind, test: &Option<AttrTest>) -> bool
    ensures exact { result ≡ tests_key_of kind test.now }
{
    let Some(test) = test else {
        return false;
    };
    match key_of(kind) {
        Some(key) => tests_key(key, test),
        None => false,
    }
}

// Whether a step is a name with a test of this kind's key and no position.
fn is_key_step(kind: ElementKind, step: &Step) -> bool
    ensures exact { result ≡ is_key_step kind step.now }
{
    has_name(&step.name) && step.position.is_none() && tests_key_of(kind, &step.test)
}

// ---- the steps along a path

// Whether all are key steps along a path of elements that have kinds, from the children of an
// element of this kind down.
fn are_key_steps_along<'a>(
    row: ElementKind,
    scope: &Scope<'a>,
    element: &'a Element,
    steps: &[Step],
    path: &[usize],
) -> bool
    requires { length scope.now + length path.now ≤ PATH_LIMIT + 1 }
    ensures exact { result
        ≡ are_key_steps_along row scope.now (child_elements_of element.now) steps.now path.now }
{
    let [number, path @ ..] = path else {
        return true;
    };
    let [step, steps @ ..] = steps else {
        return true;
    };
    let Some(child_element) = element.child_element(*number) else {
        return false;
    };
    let within = scope.with(child_element.decls());
    let Some(kind) = kind_of(row, &LinkedScope::from_scope(&within), child_element.name()) else {
        return false;
    };
    is_key_step(kind, step) && are_key_steps_along(kind, &within, child_element, steps, path)
}

// Whether the first step is only a name, and the others are key steps along a path of a document.
fn are_key_steps(usage: Usage, root: &Element, steps: &[Step], path: &Path) -> bool
    ensures exact { result ≡ are_key_steps usage root.now steps.now path.now }
{
    let [first, later @ ..] = steps else {
        return false;
    };
    let scope = Scope::empty().with(root.decls());
    is_name_alone(first)
        && are_key_steps_along(root_kind(usage), &scope, root, later, path.numbers())
}

fn ends_in_element(end: &End) -> bool
    ensures exact { result ≡ ends_in_element end.now }
{
    match end {
        End::Element => true,
        End::Attribute { .. } | End::Namespaces => false,
    }
}

/// Whether a selector that selects the element at a path is a key address of it: it ends in an
/// element, its first step is the root's name and nothing else, each later one is the name of an
/// element kind with a test of that kind's key and no position, and all elements on the path have
/// kinds. Does not allocate.
#[tactic(auto, using(crate::proofs::Addresses::address_is))]
pub fn key_address(usage: Usage, root: &Element, selector: &Selector, path: &Path) -> bool
    requires { SelectsPath selector.now.steps root.now path.now }
    ensures exact { IsTrue result ↔ IsKeyAddressOf usage root.now selector.now path.now }
{
    ends_in_element(&selector.end) && are_key_steps(usage, root, selector.steps.as_slice(), path)
}
