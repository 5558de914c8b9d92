//! Whether the root may be replaced, or have its attributes changed (RFC 4825, sections 8.2.4 and
//! 8.4).
ghost use Rattle.std.specs.Prelude.{◌≡◌, ◌≤◌, [], ◌∷◌, ℕ, List};
ghost use Rattle.xml_names.specs.declared.limits.TheConstants.{MAX_LEVELS};
ghost use Rattle.xml_tree.specs.Tree.{height};
ghost use Rattle.node_select.specs.Selection.{SelectsPath};
ghost use Rattle.usage_docs.specs.KeyAttributes.{are_attrs_allowed};
ghost use Rattle.usage_docs.specs.SchemaTable.{root_kind};
ghost use Rattle.edit_rules.specs.declared.edit_refusal.EditRefusal.TheVariants.{CannotInsert};
ghost use Rattle.edit_plans.specs.inner.ChildChangeResults.{IsRootTagResult};
ghost use Rattle.edit_plans.specs.inner.ChangeResults.{IsResultIfLawful};

use crate::child_attributes::{AttributeEdit, is_found_in, not_found_refusal};
use doc_names::Usage;
use edit_rules::EditRefusal;
use node_select::{Step, select_steps};
use std::alloc::Global;
use usage_docs::{Fault, are_attrs_allowed, first_fault, root_kind};
use xml_names::index_decls;
use xml_tree::{Element, LinkedScope};

/// The result for another root, where the steps select the root and nothing below it:
/// `CannotInsert` where they wouldn't select the new one; then `Faulty` by what is in it.
pub(crate) fn root_replacement(
    alloc: Global,
    usage: Usage,
    steps: &[Step],
    new: &Element,
) -> Result<usize, EditRefusal>
    requires root_alone { (p : List ℕ) → SelectsPath steps.now new.now p → p ≡ [] }
    requires height_bounded { height new.now ≤ MAX_LEVELS }
    ensures new_root_plan { IsResultIfLawful CannotInsert
        (SelectsPath steps.now new.now []) usage new.now result }
{
    if select_steps(alloc, new, steps).is_none() {
        return Err(EditRefusal::CannotInsert);
    }
    match first_fault(alloc, usage, new) {
        Some(fault) => Err(EditRefusal::Faulty(fault)),
        None => Ok(0),
    }
}

// Whether the attributes are valid for the root.
fn are_attrs_allowed_in_root(alloc: Global, usage: Usage, tag: &Element) -> bool
    ensures exact { result
        ≡ are_attrs_allowed (root_kind usage) (tag.now.decls ∷ []) tag.now.attrs }
{
    let declared = index_decls(alloc, tag.decls());
    are_attrs_allowed(
        root_kind(usage),
        &LinkedScope::empty().inside(&declared),
        tag.attrs(),
    )
}

/// The result for the root with this start tag. The step selects the root, which is valid, meets
/// the constraints and has unique keys: `CannotInsert` or `CannotDelete` where the attribute
/// wouldn't be found as it should be, `Faulty` where it isn't allowed.
pub(crate) fn root_attribute_change(
    alloc: Global,
    usage: Usage,
    step: &Step,
    tag: &Element,
    sought: &AttributeEdit<'_>,
) -> Result<usize, EditRefusal>
    ensures new_tag_plan { IsRootTagResult usage step.now tag.now sought.now result }
{
    if !is_found_in(alloc, &LinkedScope::empty(), step, tag, sought) {
        return Err(not_found_refusal(sought.value));
    }
    if !are_attrs_allowed_in_root(alloc, usage, tag) {
        return Err(EditRefusal::Faulty(Fault::Invalid));
    }
    Ok(0)
}
