//! What a selector selects in a tree.
ghost use Rattle.std.specs.Prelude.{◌≡◌, ◌≤◌, ◌+◌, ◌++◌, ◌↔◌, ℕ, List, [], ◌∷◌, length, option_map};
ghost use Rattle.std.specs.Prelude.{Some};
ghost use Rattle.xml_names.specs.declared.limits.TheConstants.{MAX_LEVELS};
ghost use Rattle.xml_tree.specs.Tree.{height, child_elements_of};
ghost use Rattle.node_select.specs.Selection.{IsLongestMatch, SelectsPath, matched_depth};
ghost use Rattle.node_select.specs.Selection.{longest_match_in};
ghost use Rattle.node_select.specs.Selection.{selected_path_among, selected_element_path};

use crate::selector::{Selector, Step};
use crate::step_match::{is_match, select_child};
use std::alloc::Global;
use xml_names::index_decls;
use xml_tree::{Element, LinkedScope, Path};

/// The element that a selector's steps select: None exactly when some step matches no element or
/// several. Each level is visited once. Only indexes of declarations allocate, and the result is
/// the same without them.
pub fn select(alloc: Global, root: &Element, selector: &Selector) -> Option<Path>
    requires { height root.now ≤ MAX_LEVELS }
    ensures selected_path { (p : List ℕ)
        → (result ≡ Some p) ↔ SelectsPath selector.now.steps root.now p }
    ensures computed_path { result ≡ selected_element_path selector.now.steps root.now }
{
    select_steps(alloc, root, selector.steps.as_slice())
}

/// The element that steps select, from the document down. Allocates as `select` does.
pub fn select_steps(alloc: Global, root: &Element, steps: &[Step]) -> Option<Path>
    requires { height root.now ≤ MAX_LEVELS }
    ensures selected_path { (p : List ℕ) → (result ≡ Some p) ↔ SelectsPath steps.now root.now p }
    ensures exact { result ≡ selected_element_path steps.now root.now }
{
    select_outside(alloc, root, steps)
}

// The element that steps select, of which the first matches the root.
fn select_outside(alloc: Global, root: &Element, steps: &[Step]) -> Option<Path>
    requires { height root.now ≤ MAX_LEVELS }
    ensures exact { result ≡ selected_element_path steps.now root.now }
{
    let [step, steps @ ..] = steps else {
        return None;
    };
    if !is_match(alloc, &LinkedScope::empty(), step, root, 0) {
        return None;
    }
    select_inside(alloc, root, steps)
}

// The element that steps select from the root down.
fn select_inside(alloc: Global, root: &Element, steps: &[Step]) -> Option<Path>
    requires { height root.now ≤ MAX_LEVELS }
    ensures exact { result
        ≡ selected_path_among (root.now.decls ∷ []) (child_elements_of root.now) steps.now }
{
    let declared = index_decls(alloc, root.decls());
    select_below(
        alloc,
        &LinkedScope::empty().inside(&declared),
        root,
        steps,
        Path::root(),
    )
}

// The element that steps select from the element at `path` down, in the scope at it.
fn select_below(
    alloc: Global,
    scope: &LinkedScope<'_>,
    element: &Element,
    steps: &[Step],
    path: Path,
) -> Option<Path>
    requires { length path + height element.now ≤ MAX_LEVELS }
    ensures exact { result
        ≡ option_map (λ q. path ++ q)
        (selected_path_among scope.now (child_elements_of element.now) steps.now) }
{
    let [step, steps @ ..] = steps else {
        return Some(path);
    };
    let child = select_child(alloc, scope, step, element)?;
    let child_element = element.child_element(child)?;
    let path = path.child(child)?;
    let declared = index_decls(alloc, child_element.decls());
    select_below(
        alloc,
        &(&*scope).inside(&declared),
        child_element,
        steps,
        path,
    )
}

/// The greatest number of first steps of a selector that select an element; 0 if not even the
/// first one selects the root. Allocates as `select` does.
pub fn longest_match(alloc: Global, root: &Element, selector: &Selector) -> usize
    ensures longest_selecting { IsLongestMatch selector.now.steps root.now result }
    ensures computed_path { result ≡ longest_match_in selector.now.steps root.now }
{
    count_matched_steps(alloc, root, selector.steps.as_slice())
}

// How many first steps select an element.
fn count_matched_steps(alloc: Global, root: &Element, steps: &[Step]) -> usize
    ensures exact { result ≡ longest_match_in steps.now root.now }
{
    let [step, steps @ ..] = steps else {
        return 0;
    };
    if !is_match(alloc, &LinkedScope::empty(), step, root, 0) {
        return 0;
    }
    1 + longest_match_inside(alloc, root, steps)
}

// How many first steps select one element after the other from the root down.
fn longest_match_inside(alloc: Global, root: &Element, steps: &[Step]) -> usize
    ensures exact { result
        ≡ matched_depth (root.now.decls ∷ []) (child_elements_of root.now) steps.now }
{
    let declared = index_decls(alloc, root.decls());
    longest_match_below(alloc, &LinkedScope::empty().inside(&declared), root, steps)
}

// How many first steps select one element after the other from an element down, in the scope at
// it.
fn longest_match_below(
    alloc: Global,
    scope: &LinkedScope<'_>,
    element: &Element,
    steps: &[Step],
) -> usize
    ensures exact { result ≡ matched_depth scope.now (child_elements_of element.now) steps.now }
{
    let [step, steps @ ..] = steps else {
        return 0;
    };
    let Some(child) = select_child(alloc, scope, step, element) else {
        return 0;
    };
    let Some(child_element) = element.child_element(child) else {
        return 0;
    };
    let declared = index_decls(alloc, child_element.decls());
    1 + longest_match_below(alloc, &(&*scope).inside(&declared), child_element, steps)
}
