//! The change that a PUT of an element makes, or why it makes none (RFC 4825, sections 8.2.1 to
//! 8.2.5).
ghost use Rattle.std.specs.Prelude.{◌≡◌, ◌≤◌, ◌+◌, length, suc, None};
ghost use Rattle.xml_names.specs.declared.limits.TheConstants.{MAX_LEVELS};
ghost use Rattle.xml_tree.specs.Tree.{height};
ghost use Rattle.node_select.specs.Selection.{SelectsPath};
ghost use Rattle.node_select.specs.declared.selector.End.TheVariants as ends;
ghost use Rattle.usage_docs.specs.Validation.{HasFirstFault};
ghost use Rattle.edit_ops.specs.declared.change.Change.TheVariants.{Replace};
ghost use Rattle.edit_rules.specs.ElementPuts.{FitsWithinLevelsAt, IsElementInsertion, IsPutPlan};
ghost use Rattle.edit_rules.specs.ElementPuts.{IsElementReplacement};
ghost use Rattle.edit_rules.specs.Spots.{IsSpotOf, SelectsParent};
ghost use Rattle.edit_plans.specs.inner.ChangeResults.{element_insertion, allowed_change};

use crate::child_changes::{ChildChange, answer_child_change};
use crate::root_changes::root_replacement;
use doc_names::Usage;
use edit_ops::Change;
use edit_rules::{EditRefusal, Spot};
use node_select::{Selector, Step};
use std::alloc::Global;
use xml_tree::{Element, Path};

// The insertion at an insertion point.
fn element_insertion(
    place: &Path,
    new: Element,
    gap: Result<usize, EditRefusal>,
) -> Result<Change, EditRefusal>
    ensures exact { result ≡ element_insertion place.now new gap }
{
    match gap {
        Ok(gap) => Ok(Change::Insert {
            parent: place.copy(),
            gap,
            element: new,
        }),
        Err(why) => Err(why),
    }
}

/// A change, if it is allowed.
pub(crate) fn allowed_change(
    change: Change,
    found: Result<usize, EditRefusal>,
) -> Result<Change, EditRefusal>
    ensures exact { result ≡ allowed_change change found }
{
    match found {
        Ok(_) => Ok(change),
        Err(why) => Err(why),
    }
}

// The replacement of the element at a path, if it is allowed.
fn element_replacement(
    path: &Path,
    new: Element,
    found: Result<usize, EditRefusal>,
) -> Result<Change, EditRefusal>
    ensures exact { result ≡ allowed_change (Replace path.now new) found }
{
    let change = Change::Replace {
        at: path.copy(),
        element: new,
    };
    allowed_change(change, found)
}

// The plan for a new element under a parent, which all steps but the last select.
fn plan_insertion(
    alloc: Global,
    usage: Usage,
    root: &Element,
    steps: &[Step],
    place: &Path,
    element: Element,
) -> Result<Change, EditRefusal>
    requires selects_parent { SelectsParent steps.now root.now place.now }
    requires faultless { HasFirstFault usage root.now None }
    requires room_left { length place.now + suc (height element) ≤ MAX_LEVELS }
    ensures plans_insertion { IsElementInsertion
        (record { usage = usage; document = root.now; steps = steps.now }) place.now element
        result }
{
    let [.., step] = steps else { unreachable!() };
    let gap = answer_child_change(alloc, usage, root, step, place, &ChildChange::Put(&element));
    element_insertion(place, element, gap)
}

// The plan for a replacement of an element that the steps select.
fn plan_replacement(
    alloc: Global,
    usage: Usage,
    root: &Element,
    steps: &[Step],
    path: &Path,
    element: Element,
) -> Result<Change, EditRefusal>
    requires selected { SelectsPath steps.now root.now path.now }
    requires faultless { HasFirstFault usage root.now None }
    requires room_left { length path.now + height element ≤ MAX_LEVELS }
    ensures plans_replacement { IsElementReplacement
        (record { usage = usage; document = root.now; steps = steps.now }) path.now element
        result }
{
    let Some((place, child)) = path.split_last() else {
        let found = root_replacement(alloc, usage, steps, &element);
        return element_replacement(path, element, found);
    };
    let [.., step] = steps else { unreachable!() };
    let asked = ChildChange::Exchange(child, &element);
    let found = answer_child_change(alloc, usage, root, step, &place, &asked);
    element_replacement(path, element, found)
}

/// The change that a PUT of an element makes at the edit target of its selector. The document has
/// no fault, and the levels of the element below its place are within `MAX_LEVELS`. Neither the
/// document nor the element is copied, and only the elements on the path to the parent and the
/// parent's children are looked at. Allocates only for keys and indexes; the result is the same
/// without them.
///
/// # Errors
/// `CannotInsert` exactly where the selector wouldn't select the element afterwards, wherever it
/// is inserted, or the target is beside the root; `Faulty` exactly where it would, and the new
/// document would have a fault: `Invalid` where it would be valid nowhere.
pub fn plan_put(
    alloc: Global,
    usage: Usage,
    root: &Element,
    selector: &Selector,
    spot: &Spot,
    element: Element,
) -> Result<Change, EditRefusal>
    requires valid_spot { IsSpotOf root.now selector.now spot.now }
    requires selector_end { selector.now.end ≡ ends.Element }
    requires faultless { HasFirstFault usage root.now None }
    requires room_left { FitsWithinLevelsAt spot.now element }
    ensures as_specified { IsPutPlan
        (record { usage = usage; document = root.now; steps = selector.now.steps }) spot.now
        element result }
{
    let steps = selector.steps.as_slice();
    match spot {
        Spot::Over(path) => plan_replacement(alloc, usage, root, steps, path, element),
        Spot::Under(place) => plan_insertion(alloc, usage, root, steps, place, element),
        Spot::Beside => Err(EditRefusal::CannotInsert),
        Spot::Value(_) => unreachable!(),
    }
}
