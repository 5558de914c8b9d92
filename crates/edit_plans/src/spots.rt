//! The edit target that the selector of a PUT means in a document (RFC 4825, section 8.2.1).
ghost use Rattle.std.specs.Prelude.{◌≡◌, ◌≤◌, length};
ghost use Rattle.xml_names.specs.declared.limits.TheConstants.{MAX_LEVELS};
ghost use Rattle.xml_tree.specs.Tree.{Tree, height};
ghost use Rattle.node_select.specs.declared.selector.End.TheVariants as ends;
ghost use Rattle.node_select.specs.declared.selector.Selector.{Selector};
ghost use Rattle.edit_rules.specs.Spots.{EndsInAttribute, IsSpot};
ghost use Rattle.edit_plans.specs.inner.LongestMatches.{ReachesElement};

use edit_rules::{NoParent, Spot};
use node_select::{End, Reached, Selector, reach};
use std::alloc::Global;
use xml_tree::Element;

// The edit target of a selector of `many` steps that ends in an element.
fn element_target(many: usize, reached: Reached) -> Result<Spot, NoParent>
    ensures element_spot { (t : Tree) (selector : Selector) → selector.end ≡ ends.Element
        → many ≡ length selector.steps → ReachesElement selector.steps t reached
        → IsSpot t selector result }
{
    if reached.steps == 0 {
        if many == 1 {
            return Ok(Spot::Beside);
        }
        return Err(NoParent { steps: 0 });
    }
    if reached.steps == many {
        return Ok(Spot::Over(reached.path));
    }
    if reached.steps < many && many - reached.steps == 1 {
        return Ok(Spot::Under(reached.path));
    }
    Err(NoParent {
        steps: reached.steps,
    })
}

// The edit target of a selector of `many` steps that ends in an attribute.
fn attribute_target(many: usize, reached: Reached) -> Result<Spot, NoParent>
    ensures attribute_spot { (t : Tree) (selector : Selector) → EndsInAttribute selector.end
        → many ≡ length selector.steps → ReachesElement selector.steps t reached
        → IsSpot t selector result }
{
    if reached.steps == 0 {
        return Err(NoParent { steps: 0 });
    }
    if reached.steps == many {
        return Ok(Spot::Value(reached.path));
    }
    Err(NoParent {
        steps: reached.steps,
    })
}

/// The edit target that the selector of a PUT means, which doesn't end in `namespace::*`, by one
/// descent. Allocates only for indexes of declarations; the result is the same without them.
///
/// # Errors
/// `NoParent` where there is no target, with the length of the longest prefix of the steps that
/// selects an element.
pub fn put_spot(alloc: Global, root: &Element, selector: &Selector) -> Result<Spot, NoParent>
    requires height_bounded { height root.now ≤ MAX_LEVELS }
    requires selects_node { selector.now.end ≡ ends.Namespaces → ⊥ }
    ensures as_specified { IsSpot root.now selector.now result }
{
    let steps = selector.steps.as_slice();
    let reached = reach(alloc, root, steps);
    match &selector.end {
        End::Element => element_target(steps.len(), reached),
        End::Attribute { .. } => attribute_target(steps.len(), reached),
        End::Namespaces => unreachable!(),
    }
}
