//! The change that a DELETE of a node makes, or why it makes none (RFC 4825, section 8.4).
ghost use Rattle.std.specs.Prelude.{◌≡◌, ◌≤◌, IfOk, None};
ghost use Rattle.xml_names.specs.declared.limits.TheConstants.{MAX_LEVELS};
ghost use Rattle.xml_names.specs.Attributes.{without_attr};
ghost use Rattle.xml_tree.specs.Tree.{height};
ghost use Rattle.node_select.specs.Selection.{SelectsPath};
ghost use Rattle.node_select.specs.declared.selector.End.TheVariants as ends;
ghost use Rattle.usage_docs.specs.Validation.{HasFirstFault};
ghost use Rattle.edit_ops.specs.declared.change.Change.TheVariants.{DropAttr, Remove};
ghost use Rattle.edit_rules.specs.Deletions.{IsDeletePlan};
ghost use Rattle.edit_rules.specs.StartTags.{start_tag_with};
ghost use Rattle.edit_plans.specs.inner.ChangeResults.{allowed_change};

use crate::attribute_changes::plan_attribute_change;
use crate::child_attributes::AttributeEdit;
use crate::child_changes::{ChildChange, answer_child_change};
use crate::put_element::allowed_change;
use doc_names::Usage;
use edit_ops::{Change, without_children};
use edit_rules::EditRefusal;
use node_select::{End, Selector, find_attr, select};
use std::alloc::{AllocError, Global};
use usage_docs::Fault;
use xml_names::{Name, Text};
use xml_tree::{Element, Path, Scope, element_at};

// The removal of the element at a path, if it is allowed.
fn element_removal(path: Path, found: Result<usize, EditRefusal>) -> Result<Change, EditRefusal>
    ensures exact { result ≡ allowed_change (Remove path) found }
{
    allowed_change(Change::Remove { at: path }, found)
}

// The removal of an attribute of the element at a path, if it is allowed.
fn attribute_removal(
    path: Path,
    name: Name,
    found: Result<usize, EditRefusal>,
) -> Result<Change, EditRefusal>
    ensures exact { result ≡ allowed_change (DropAttr path name) found }
{
    allowed_change(Change::DropAttr { at: path, name }, found)
}

// The start tag of an element without an attribute.
fn tag_without(alloc: Global, element: &Element, name: &Name) -> Result<Element, AllocError>
    ensures ok { IfOk result
        (λ tag. tag ≡ start_tag_with (without_attr name.now element.now.attrs) element.now) }
{
    let mut tag = without_children(alloc, element)?;
    tag.drop_attr(name);
    Ok(tag)
}

// The plan for the element at a path, which the selector selects.
fn plan_removal(
    alloc: Global,
    usage: Usage,
    root: &Element,
    selector: &Selector,
    path: Path,
) -> Result<Change, EditRefusal>
    requires selector_end { selector.now.end ≡ ends.Element }
    requires selected { SelectsPath selector.now.steps root.now path }
    requires faultless { HasFirstFault usage root.now None }
    ensures plans_removal { IsDeletePlan usage root.now selector.now result }
{
    let Some((place, child)) = path.split_last() else {
        return Err(EditRefusal::Faulty(Fault::Invalid));
    };
    let [.., step] = selector.steps.as_slice() else {
        unreachable!()
    };
    let found = answer_child_change(
        alloc,
        usage,
        root,
        step,
        &place,
        &ChildChange::RemoveChild(child),
    );
    element_removal(path, found)
}

// The plan for an attribute of the element at a path, which the steps select.
fn plan_drop<'a>(
    alloc: Global,
    usage: Usage,
    root: &Element,
    selector: &Selector,
    path: Path,
    uri: &'a Text,
    local: &'a Text,
) -> Result<Result<Change, EditRefusal>, AllocError>
    requires height_bounded { height root.now ≤ MAX_LEVELS }
    requires selector_end { selector.now.end ≡ ends.Attribute uri.now local.now }
    requires selected { SelectsPath selector.now.steps root.now path }
    requires faultless { HasFirstFault usage root.now None }
    ensures plans_drop { IfOk result (IsDeletePlan usage root.now selector.now) }
{
    let Some(element) = element_at(root, &path) else {
        unreachable!()
    };
    let Some(scope) = Scope::at(root, &path) else {
        unreachable!()
    };
    let Some(place) = find_attr(alloc, element, &scope, uri.as_str(), local.as_str()) else {
        return Ok(Err(EditRefusal::NotFound));
    };
    let name = element.attrs()[place].name.copy(alloc)?;
    let tag = tag_without(alloc, element, &name)?;
    let sought = AttributeEdit {
        uri,
        local,
        value: None,
    };
    let found = plan_attribute_change(alloc, usage, root, selector, &path, element, &tag, &sought);
    Ok(attribute_removal(path, name, found))
}

/// The change that a DELETE of an element or an attribute makes; the selector doesn't end in
/// `namespace::*`, and the document has no fault. Only what the steps pass, the elements on the
/// path to the parent and the parent's children are looked at. There is no change: `NotFound`
/// exactly where nothing is found; `Faulty` for the root element; `CannotDelete` exactly where the
/// selector would still find something; then `Faulty` with the first fault of the new document.
///
/// # Errors
/// `AllocError` when out of memory.
pub fn plan_delete(
    alloc: Global,
    usage: Usage,
    root: &Element,
    selector: &Selector,
) -> Result<Result<Change, EditRefusal>, AllocError>
    requires height_bounded { height root.now ≤ MAX_LEVELS }
    requires selects_node { selector.now.end ≡ ends.Namespaces → ⊥ }
    requires faultless { HasFirstFault usage root.now None }
    ensures as_specified { IfOk result (IsDeletePlan usage root.now selector.now) }
{
    let Some(path) = select(alloc, root, selector) else {
        return Ok(Err(EditRefusal::NotFound));
    };
    match &selector.end {
        End::Element => Ok(plan_removal(alloc, usage, root, selector, path)),
        End::Attribute { uri, local } => {
            plan_drop(alloc, usage, root, selector, path, uri, local)
        }
        End::Namespaces => unreachable!(),
    }
}
