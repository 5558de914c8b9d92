//! What the selector of an operation selects (RFC 5261, section 4.1).
ghost use Rattle.std.specs.Prelude.{◌≡◌, ◌≤◌, Some};
ghost use Rattle.xml_names.specs.declared.limits.TheConstants.{MAX_LEVELS};
ghost use Rattle.xml_tree.specs.TreeScopes.{scope_at};
ghost use Rattle.xml_tree.specs.Tree.{at, height};
ghost use Rattle.node_select.specs.declared.selector.PatchEnd.TheVariants as ends;
ghost use Rattle.patch_rules.specs.PatchOperations.{locate_end, locate};
ghost use Rattle.patch_apply.specs.inner.LocationViews.{LocatesAs, path_of_location};

use crate::nodes::selected_text;
use node_select::{PatchEnd, PatchSelector, find_attr, select_steps};
use std::alloc::Global;
use xml_names::Text;
use xml_tree::{Element, Path, Scope, element_at};

/// What is selected: an element, one of its attributes by its number, or one of its nodes, a text,
/// by its number.
#[derive(Drop)]
pub enum Location {
    AtElement(Path),
    AtAttr(Path, usize),
    AtText(Path, usize),
}

impl Location {
    /// The path of the selected element, or of the element that has the selected attribute or
    /// text.
    pub(crate) fn into_path(self) -> Path
        ensures exact { result ≡ path_of_location self }
    {
        match self {
            Location::AtElement(path) => path,
            Location::AtAttr(path, _) => path,
            Location::AtText(path, _) => path,
        }
    }
}

// The attribute of a name in the element at a path.
fn attribute_at(
    alloc: Global,
    tree: &Element,
    path: Path,
    element: &Element,
    uri: &Text,
    local: &Text,
) -> Option<Location>
    requires { at path tree.now ≡ Some element.now }
    ensures selected_location { LocatesAs tree.now
        (locate_end (ends.Attribute uri.now local.now) (scope_at path tree.now) path element.now)
        result }
{
    let scope = Scope::at(tree, &path)?;
    let place = find_attr(alloc, element, &scope, uri.as_str(), local.as_str())?;
    Some(Location::AtAttr(path, place))
}

// What the end of a selector selects, in the element at a path.
fn locate_end(
    alloc: Global,
    end: &PatchEnd,
    tree: &Element,
    path: Path,
    element: &Element,
) -> Option<Location>
    requires { at path tree.now ≡ Some element.now }
    ensures selected_location { LocatesAs tree.now
        (locate_end end.now (scope_at path tree.now) path element.now) result }
{
    match end {
        PatchEnd::Element => Some(Location::AtElement(path)),
        PatchEnd::Attribute { uri, local } => {
            attribute_at(alloc, tree, path, element, uri, local)
        }
        PatchEnd::Chars(position) => {
            let place = selected_text(element.nodes(), *position)?;
            Some(Location::AtText(path, place))
        }
    }
}

/// The location that a selector selects in a tree.
pub(crate) fn locate(alloc: Global, selector: &PatchSelector, tree: &Element) -> Option<Location>
    requires { height tree.now ≤ MAX_LEVELS }
    ensures selected_location { LocatesAs tree.now (locate selector.now tree.now) result }
{
    let path = select_steps(alloc, tree, selector.steps.as_slice())?;
    let element = element_at(tree, &path)?;
    locate_end(alloc, &selector.end, tree, path, element)
}
