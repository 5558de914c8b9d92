//! How far the steps of a selector lead, in one descent.
ghost use Rattle.std.specs.Prelude.{◌≡◌, ◌<◌, ◌≤◌, ◌+◌, ◌∷◌, [], length, take};
ghost use Rattle.xml_names.specs.declared.limits.TheConstants.{MAX_LEVELS};
ghost use Rattle.xml_tree.specs.Tree.{height, child_elements_of};
ghost use Rattle.node_select.specs.inner.LongestMatches.{ReachesBelow};
ghost use Rattle.node_select.specs.Selection.{IsLongestMatch, SelectsPath};

use crate::selector::Step;
use crate::step_match::{is_match, select_child};
use std::alloc::Global;
use xml_names::index_decls;
use xml_tree::{Element, LinkedScope, Path};

/// How far steps lead from the document down.
#[derive(Drop)]
pub struct Reached {
    /// This many first steps select an element, and no greater number does.
    pub steps: usize,
    /// The element that they select, if there are any.
    pub path: Path,
}

/// How far steps lead. Each level is visited once. Only indexes of declarations allocate, and the
/// result is the same without them.
pub fn reach(alloc: Global, root: &Element, steps: &[Step]) -> Reached
    requires height_bounded { height root.now ≤ MAX_LEVELS }
    ensures longest_selecting { IsLongestMatch steps.now root.now result.steps }
    ensures path_is_selected { 0 < result.steps
        → SelectsPath (take result.steps steps.now) root.now result.path }
{
    let [step, steps @ ..] = steps else {
        return nothing_reached();
    };
    if !is_match(alloc, &LinkedScope::empty(), step, root, 0) {
        return nothing_reached();
    }
    let below = reach_inside(alloc, root, steps);
    Reached {
        steps: 1 + below.steps,
        path: below.path,
    }
}

// The result where not even the first step selects.
fn nothing_reached() -> Reached
    ensures no_step { result.steps ≡ 0 }
    ensures no_path { result.path ≡ [] }
{
    Reached {
        steps: 0,
        path: Path::root(),
    }
}

// How far steps lead from the root down.
fn reach_inside(alloc: Global, root: &Element, steps: &[Step]) -> Reached
    requires height_bounded { height root.now ≤ MAX_LEVELS }
    ensures reaches_below { ReachesBelow (root.now.decls ∷ [])
        (child_elements_of root.now) steps.now [] result }
{
    let declared = index_decls(alloc, root.decls());
    reach_below(
        alloc,
        &LinkedScope::empty().inside(&declared),
        root,
        steps,
        Path::root(),
    )
}

// How far steps lead from the element at `path` down, in the scope at it.
fn reach_below(
    alloc: Global,
    scope: &LinkedScope<'_>,
    element: &Element,
    steps: &[Step],
    path: Path,
) -> Reached
    requires height_bounded { length path + height element.now ≤ MAX_LEVELS }
    ensures reaches_below { ReachesBelow scope.now
        (child_elements_of element.now) steps.now path result }
{
    let [step, steps @ ..] = steps else {
        return Reached { steps: 0, path };
    };
    let Some(child) = select_child(alloc, scope, step, element) else {
        return Reached { steps: 0, path };
    };
    let Some(child_element) = element.child_element(child) else {
        unreachable!()
    };
    let Some(longer) = path.child(child) else {
        unreachable!()
    };
    let declared = index_decls(alloc, child_element.decls());
    let inside = (&*scope).inside(&declared);
    let below = reach_below(alloc, &inside, child_element, steps, longer);
    Reached {
        steps: 1 + below.steps,
        path: below.path,
    }
}
