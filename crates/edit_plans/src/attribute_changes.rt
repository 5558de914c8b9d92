//! Whether an element may have its attributes changed (RFC 4825, sections 8.2.4 and 8.4).
ghost use Rattle.std.specs.Prelude.{◌≡◌, ◌≤◌, Some, None};
ghost use Rattle.xml_names.specs.declared.limits.TheConstants.{MAX_LEVELS};
ghost use Rattle.xml_tree.specs.Tree.{at, height};
ghost use Rattle.node_select.specs.Selection.{SelectsPath};
ghost use Rattle.node_select.specs.declared.selector.End.TheVariants as ends;
ghost use Rattle.usage_docs.specs.Validation.{HasFirstFault};
ghost use Rattle.edit_rules.specs.StartTags.{start_tag_with, with_attrs};
ghost use Rattle.edit_plans.specs.inner.ChangeResults.{IsNewTagResultAt};

use crate::child_attributes::AttributeEdit;
use crate::child_changes::{ChildChange, answer_child_change};
use crate::root_changes::root_attribute_change;
use doc_names::Usage;
use edit_rules::EditRefusal;
use node_select::Selector;
use std::alloc::Global;
use xml_tree::{Element, Path};

/// The result for the element at a path, which the selector's steps select, with this start tag:
/// `CannotInsert` or `CannotDelete` where the attribute wouldn't be found as it should be; then
/// `Faulty` with the first fault of the new document.
pub(crate) fn plan_attribute_change(
    alloc: Global,
    usage: Usage,
    root: &Element,
    selector: &Selector,
    path: &Path,
    element: &Element,
    tag: &Element,
    sought: &AttributeEdit<'_>,
) -> Result<usize, EditRefusal>
    requires height_bounded { height root.now ≤ MAX_LEVELS }
    requires place_exists { at path.now root.now ≡ Some element.now }
    requires tag { tag.now ≡ start_tag_with tag.now.attrs element.now }
    requires selector_end { selector.now.end
        ≡ ends.Attribute sought.now.uri.now sought.now.local.now }
    requires selected { SelectsPath selector.now.steps root.now path.now }
    requires faultless { HasFirstFault usage root.now None }
    ensures new_tag_plan { IsNewTagResultAt
        (record { usage = usage; document = root.now; selector = selector.now }) path.now
        (with_attrs tag.now.attrs element.now) sought.now result }
{
    let [.., step] = selector.steps.as_slice() else {
        unreachable!()
    };
    let Some((place, child)) = path.split_last() else {
        return root_attribute_change(alloc, usage, step, tag, sought);
    };
    let asked = ChildChange::SetAttributes(child, tag, sought);
    answer_child_change(alloc, usage, root, step, &place, &asked)
}
