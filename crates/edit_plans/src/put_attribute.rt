//! The change that a PUT of an attribute makes, or why it makes none (RFC 4825, sections 8.2.1 to
//! 8.2.5; Namespaces in XML 1.0, section 6.2).
ghost use Rattle.std.specs.Prelude.{◌≡◌, ◌≤◌, Some, IfOk, option_map, None};
ghost use Rattle.std.specs.List.{find};
ghost use Rattle.std.specs.Str.{bytes_eq};
ghost use Rattle.xml_names.specs.declared.limits.TheConstants.{MAX_LEVELS};
ghost use Rattle.xml_names.specs.Attributes.{with_attr};
ghost use Rattle.xml_tree.specs.Tree.{height};
ghost use Rattle.xml_names.specs.Scopes.{xml_uri};
ghost use Rattle.node_select.specs.Selection.{SelectsPath};
ghost use Rattle.edit_rules.specs.AttributePuts.{IsAttrPlan, IsValuePlan, is_binding, new_name};
ghost use Rattle.edit_rules.specs.AttributePuts.{new_prefix, written_name};
ghost use Rattle.edit_rules.specs.Spots.{IsSpotOf};
ghost use Rattle.edit_rules.specs.StartTags.{start_tag_with};
ghost use Rattle.edit_rules.specs.declared.spot.Spot.TheVariants.{Value};
ghost use Rattle.node_select.specs.declared.selector.End.TheVariants as ends;
ghost use Rattle.usage_docs.specs.Validation.{HasFirstFault};
ghost use Rattle.edit_ops.specs.declared.change.Change.TheVariants.{SetAttr};
ghost use Rattle.edit_plans.specs.inner.ChangeResults.{allowed_change};

use crate::attribute_changes::plan_attribute_change;
use crate::child_attributes::AttributeEdit;
use crate::put_element::allowed_change;
use doc_names::Usage;
use edit_ops::{Change, without_children};
use edit_rules::EditRefusal;
use node_select::{End, Selector, find_attr};
use std::alloc::{AllocError, Global};
use xml_names::{Decl, LocalName, Name, Prefix, Text};
use xml_tree::{Element, Path, Scope, element_at};

// Whether it binds the namespace to a prefix that isn't empty.
fn is_binding(uri: &Text, decl: &Decl) -> bool
    ensures exact { result ≡ is_binding uri.now decl.now }
{
    !decl.prefix.is("") && decl.uri.is(uri.as_str())
}

// The prefix of the first binding of a namespace.
fn bound_prefix(alloc: Global, bindings: &[Decl], uri: &Text) -> Result<Option<Prefix>, AllocError>
    ensures ok { IfOk result
        (λ prefix. prefix ≡ option_map (λ d. d.prefix) (find (is_binding uri.now) bindings.now)) }
{
    for decl in bindings {
        if is_binding(uri, decl) {
            let prefix = decl.prefix.copy(alloc)?;
            return Ok(Some(prefix));
        }
    }
    Ok(None)
}

// Whether it is the namespace that `xml` is always bound to.
fn is_xml_space(scope: &Scope<'_>, uri: &Text) -> bool
    ensures exact { result ≡ bytes_eq uri.now xml_uri }
{
    match scope.resolve("xml") {
        Some(space) => uri.is(space),
        None => unreachable!(),
    }
}

// The prefix of a new attribute in this namespace, if there is one.
fn new_prefix(alloc: Global, scope: &Scope<'_>, uri: &Text) -> Result<Option<Prefix>, AllocError>
    ensures ok { IfOk result (λ prefix. prefix ≡ new_prefix scope.now uri.now) }
{
    if uri.is("") {
        let none = Prefix::from(alloc, "")?;
        return Ok(Some(none));
    }
    if is_xml_space(scope, uri) {
        let xml = Prefix::from(alloc, "xml")?;
        return Ok(Some(xml));
    }
    let bindings = scope.bindings(alloc)?;
    bound_prefix(alloc, &bindings, uri)
}

// The name of a new attribute, if there is a prefix for it.
fn new_name(
    alloc: Global,
    scope: &Scope<'_>,
    uri: &Text,
    local: &Text,
) -> Result<Option<Name>, AllocError>
    ensures ok { IfOk result (λ name. name ≡ new_name scope.now uri.now local.now) }
{
    match new_prefix(alloc, scope, uri)? {
        None => Ok(None),
        Some(prefix) => {
            let local = LocalName::from(alloc, local.as_str())?;
            Ok(Some(Name { prefix, local }))
        }
    }
}

// The name of the attribute to write, in the scope at its element.
fn written_name(
    alloc: Global,
    scope: &Scope<'_>,
    element: &Element,
    uri: &Text,
    local: &Text,
) -> Result<Option<Name>, AllocError>
    ensures ok { IfOk result
        (λ name. name ≡ written_name scope.now uri.now local.now element.now.attrs) }
{
    match find_attr(alloc, element, scope, uri.as_str(), local.as_str()) {
        None => new_name(alloc, scope, uri, local),
        Some(place) => {
            let name = element.attrs()[place].name.copy(alloc)?;
            Ok(Some(name))
        }
    }
}

// The writing of an attribute of the element at a path, if it is allowed.
fn attribute_write(
    path: &Path,
    name: Name,
    value: Text,
    found: Result<usize, EditRefusal>,
) -> Result<Change, EditRefusal>
    ensures exact { result ≡ allowed_change (SetAttr path.now name value) found }
{
    let change = Change::SetAttr {
        at: path.copy(),
        name,
        value,
    };
    allowed_change(change, found)
}

// The start tag of an element with an attribute written.
fn tag_with_attribute(
    alloc: Global,
    element: &Element,
    name: &Name,
    value: &Text,
) -> Result<Element, AllocError>
    ensures ok { IfOk result
        (λ tag. tag ≡ start_tag_with (with_attr name.now value.now element.now.attrs) element.now) }
{
    let mut tag = without_children(alloc, element)?;
    let name = name.copy(alloc)?;
    let value = value.copy(alloc)?;
    tag.set_attr(name, value)?;
    Ok(tag)
}

// The plan for the attribute of this namespace and local name of the element at a path.
fn plan_value(
    alloc: Global,
    usage: Usage,
    root: &Element,
    selector: &Selector,
    path: &Path,
    uri: &Text,
    local: &Text,
    value: Text,
) -> Result<Result<Change, EditRefusal>, AllocError>
    requires height_bounded { height root.now ≤ MAX_LEVELS }
    requires selector_end { selector.now.end ≡ ends.Attribute uri.now local.now }
    requires selected { SelectsPath selector.now.steps root.now path.now }
    requires faultless { HasFirstFault usage root.now None }
    ensures plans_value { IfOk result
        (IsValuePlan (record { usage = usage; document = root.now; steps = selector.now.steps })
        (record { path = path.now; uri = uri.now; local = local.now }) value) }
{
    let Some(element) = element_at(root, path) else {
        unreachable!()
    };
    let Some(scope) = Scope::at(root, path) else {
        unreachable!()
    };
    let Some(name) = written_name(alloc, &scope, element, uri, local)? else {
        return Ok(Err(EditRefusal::CannotInsert));
    };
    let tag = tag_with_attribute(alloc, element, &name, &value)?;
    let sought = AttributeEdit::with_value(uri, local, &value);
    let found = plan_attribute_change(alloc, usage, root, selector, path, element, &tag, &sought);
    Ok(attribute_write(path, name, value, found))
}

/// The change that a PUT of an attribute makes: the selector ends in an attribute, its steps
/// select the element at this path, and the document has no fault. An existing attribute keeps its
/// place and its prefix; a new one comes last, with the least prefix by code point that its
/// namespace is bound to. Only the elements on the path, the element's attributes and its siblings
/// are looked at. There is no change: `CannotInsert` exactly where there is no such prefix, or the
/// selector wouldn't find the value afterwards; then `Faulty` with the first fault of the new
/// document.
///
/// # Errors
/// `AllocError` when out of memory.
pub fn plan_attr(
    alloc: Global,
    usage: Usage,
    root: &Element,
    selector: &Selector,
    at: &Path,
    value: Text,
) -> Result<Result<Change, EditRefusal>, AllocError>
    requires height_bounded { height root.now ≤ MAX_LEVELS }
    requires valid_spot { IsSpotOf root.now selector.now (Value at.now) }
    requires faultless { HasFirstFault usage root.now None }
    ensures as_specified { IfOk result
        (IsAttrPlan (record { usage = usage; document = root.now; steps = selector.now.steps })
        selector.now.end at.now value) }
{
    match &selector.end {
        End::Attribute { uri, local } => {
            plan_value(alloc, usage, root, selector, at, uri, local, value)
        }
        End::Element => unreachable!(),
        End::Namespaces => unreachable!(),
    }
}
