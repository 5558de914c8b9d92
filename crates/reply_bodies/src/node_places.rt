//! Whether a node that is put has a place (RFC 4825, section 8.2.1).
ghost use Rattle.std.specs.Prelude.{◌≡◌, ◌≤◌};
ghost use Rattle.xml_names.specs.declared.limits.TheConstants.{MAX_LEVELS};
ghost use Rattle.xml_tree.specs.Tree.{height};
ghost use Rattle.reply_bodies.specs.NodePlaces.{attribute_has_place, parent_steps};
ghost use Rattle.reply_bodies.specs.NodePlaces.{element_has_place};
ghost use Rattle.reply_bodies.specs.NodePlaces.{has_place};

use node_select::{End, Selector, Step, select_steps};
use std::alloc::Global;
use xml_tree::Element;

// All steps but the last.
#[tactic(auto, using(crate::proofs::Fronts::front_is))]
fn parent_steps(steps: &[Step]) -> &[Step]
    ensures drops_last { result.now ≡ parent_steps steps.now }
{
    match steps {
        [] => steps,
        [front @ .., _] => front,
    }
}

// Whether steps select an element.
fn selects_element(alloc: Global, root: &Element, steps: &[Step]) -> bool
    requires { height root.now ≤ MAX_LEVELS }
    ensures exact { result ≡ attribute_has_place steps.now root.now }
{
    select_steps(alloc, root, steps).is_some()
}

// Whether an element that these steps select has a place: it exists, or its parent does, or it
// would be the root.
fn element_has_place(alloc: Global, root: &Element, steps: &[Step]) -> bool
    requires { height root.now ≤ MAX_LEVELS }
    ensures exact { result ≡ element_has_place steps.now root.now }
{
    match steps {
        [] => false,
        [_] => true,
        [_, _, ..] => selects_element(alloc, root, steps)
            || selects_element(alloc, root, parent_steps(steps)),
    }
}

/// Whether a node that is put where a selector points has a place: the node exists; or the
/// element's parent does, or the element would be the root; or the attribute's element exists. A
/// list of bindings has none. Allocates only for indexes of declarations; the result is the same
/// without them.
pub fn has_place(alloc: Global, root: &Element, selector: &Selector) -> bool
    requires { height root.now ≤ MAX_LEVELS }
    ensures exact { result ≡ has_place selector.now root.now }
{
    let steps = selector.steps.as_slice();
    match &selector.end {
        End::Element => element_has_place(alloc, root, steps),
        End::Attribute { .. } => selects_element(alloc, root, steps),
        End::Namespaces => false,
    }
}
