//! The text of what a selector finds in a document (RFC 4825, sections 7.6, 7.9, 7.10 and 10).
ghost use Rattle.std.specs.Prelude.{◌≡◌, ◌≤◌, [], Some, IfOk, is_some, option_map};
ghost use Rattle.std.specs.List.{find};
ghost use Rattle.std.specs.Option.{option_copied};
ghost use Rattle.xml_names.specs.declared.limits.TheConstants.{MAX_LEVELS};
ghost use Rattle.xml_tree.specs.Print.{print};
ghost use Rattle.xml_names.specs.Scopes.{in_scope_bindings};
ghost use Rattle.xml_tree.specs.Tree.{at, height, last, tree_of};
ghost use Rattle.tree_print.specs.AttributeBodyPrints.{body_print};
ghost use Rattle.node_select.specs.Selection.{is_attr_named};
ghost use Rattle.reply_bodies.specs.Nodes.{encode_optional, found_text, node_media_type, node_text};
ghost use Rattle.reply_bodies.specs.Nodes.{node_text_at};

use node_select::{End, Selector, find_attr, select};
use reply_text::MediaType;
use std::alloc::{AllocError, Global};
use tree_print::{print_att_value, print_element};
use xcap_io::Bytes;
use xml_names::{Attr, Decl, Name, Text};
use xml_tree::{Element, Path, Scope, element_at};

// ---- one node

// The attribute of an element that has this expanded name, in the scope at the element.
fn find_attribute<'a>(
    alloc: Global,
    element: &'a Element,
    scope: &Scope<'_>,
    uri: &Text,
    local: &Text,
) -> Option<&'a Attr>
    ensures exact { option_copied result
        ≡ find (is_attr_named scope.now uri.now local.now) element.now.attrs }
{
    let place = find_attr(alloc, element, scope, uri.as_str(), local.as_str())?;
    element.attrs().get(place)
}

// The value of an attribute, if there is one, as a reply's body.
fn attribute_text(alloc: Global, attr: Option<&Attr>) -> Result<Option<Bytes>, AllocError>
    ensures ok { IfOk result
        (λ text. text
        ≡ encode_optional (option_map (λ a. body_print a.value) (option_copied attr.entry))) }
{
    match attr {
        None => Ok(None),
        Some(attr) => {
            let text = print_att_value(alloc, attr.value.as_str())?;
            Ok(Some(text))
        }
    }
}

// An element without content, with these declarations.
fn declaring_element(alloc: Global, name: &Name, decls: Vec<Decl>) -> Result<Element, AllocError>
    ensures ok { IfOk result (λ made. made ≡ tree_of name.now decls.items [] (last [])) }
{
    let mut element = Element::new(alloc, name.copy(alloc)?);
    for decl in decls {
        element.push_decl(decl)?;
    }
    Ok(element)
}

// All bindings in scope at an element, as the declarations of an empty element with its name.
fn bindings_text(alloc: Global, element: &Element, scope: &Scope<'_>) -> Result<Bytes, AllocError>
    ensures declares_scope { IfOk result
        (λ text. Some text ≡ encode_optional
        (Some (print (tree_of element.now.name (in_scope_bindings scope.now) [] (last []))))) }
{
    let decls = scope.bindings(alloc)?;
    let declaring = declaring_element(alloc, element.name(), decls)?;
    print_element(alloc, &declaring)
}

// The text of an element as it is in the document.
fn element_text(alloc: Global, element: &Element) -> Result<Option<Bytes>, AllocError>
    ensures ok { IfOk result (λ text. text ≡ encode_optional (Some (print element.now))) }
{
    let text = print_element(alloc, element)?;
    Ok(Some(text))
}

// The text of what a selector's end finds at an element in its scope.
fn node_text(
    alloc: Global,
    element: &Element,
    scope: &Scope<'_>,
    end: &End,
) -> Result<Option<Bytes>, AllocError>
    ensures ok { IfOk result
        (λ text. text ≡ encode_optional (node_text end.now scope.now element.now)) }
{
    match end {
        End::Element => element_text(alloc, element),
        End::Attribute { uri, local } => {
            attribute_text(alloc, find_attribute(alloc, element, scope, uri, local))
        }
        End::Namespaces => {
            let text = bindings_text(alloc, element, scope)?;
            Ok(Some(text))
        }
    }
}

// Whether a selector's end finds something at an element in its scope.
fn has_node(alloc: Global, element: &Element, scope: &Scope<'_>, end: &End) -> bool
    ensures exact { result ≡ is_some (node_text end.now scope.now element.now) }
{
    match end {
        End::Element => true,
        End::Attribute { uri, local } => find_attribute(
            alloc, element, scope, uri, local,
        ).is_some(),
        End::Namespaces => true,
    }
}

// ---- at a path

// The text of what a selector's end finds at an element, in the scope at its path.
fn scoped_text_at(
    alloc: Global,
    root: &Element,
    path: &Path,
    element: &Element,
    end: &End,
) -> Result<Option<Bytes>, AllocError>
    requires { at path.now root.now ≡ Some element.now }
    ensures ok { IfOk result
        (λ text. text ≡ encode_optional (node_text_at end.now path.now root.now)) }
{
    let Some(scope) = Scope::at(root, path) else {
        return Ok(None);
    };
    node_text(alloc, element, &scope, end)
}

// The text of what a selector's end finds at the element of a path. An element is sent as it is,
// whatever its scope.
fn node_text_at(
    alloc: Global,
    root: &Element,
    path: &Path,
    end: &End,
) -> Result<Option<Bytes>, AllocError>
    ensures ok { IfOk result
        (λ text. text ≡ encode_optional (node_text_at end.now path.now root.now)) }
{
    let Some(element) = element_at(root, path) else {
        return Ok(None);
    };
    match end {
        End::Element => element_text(alloc, element),
        End::Attribute { .. } | End::Namespaces => {
            scoped_text_at(alloc, root, path, element, end)
        }
    }
}

/// Whether a selector's end finds something at the element of a path that is already selected, so
/// that the document need not be searched again. Allocates only for indexes of declarations; the
/// result is the same without them.
pub fn has_node_at(alloc: Global, root: &Element, path: &Path, end: &End) -> bool
    ensures exact { result ≡ is_some (node_text_at end.now path.now root.now) }
{
    let Some(element) = element_at(root, path) else {
        return false;
    };
    match Scope::at(root, path) {
        None => false,
        Some(scope) => has_node(alloc, element, &scope, end),
    }
}

// ---- in a document

/// The text of what a selector finds in a document: an element as it is in the document; an
/// attribute's value, escaped; or for `namespace::*` an empty element with the selected element's
/// name that declares all bindings in scope, the default first, then the prefixes by code point.
/// None exactly where nothing is found. Only what is found is printed, not the document around it.
///
/// # Errors
/// `AllocError` when out of memory.
pub fn found_text(
    alloc: Global,
    root: &Element,
    selector: &Selector,
) -> Result<Option<Bytes>, AllocError>
    requires { height root.now ≤ MAX_LEVELS }
    ensures ok { IfOk result (λ text. text ≡ encode_optional (found_text root.now selector.now)) }
{
    let Some(path) = select(alloc, root, selector) else {
        return Ok(None);
    };
    node_text_at(alloc, root, &path, &selector.end)
}

/// The media type of what a selector with this end finds (RFC 4825, section 15.2). Does not
/// allocate.
pub fn node_media_type(end: &End) -> MediaType
    ensures exact { result ≡ node_media_type end.now }
{
    match end {
        End::Element => MediaType::Element,
        End::Attribute { .. } => MediaType::Attribute,
        End::Namespaces => MediaType::Namespaces,
    }
}
