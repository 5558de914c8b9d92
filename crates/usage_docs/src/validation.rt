//! Validation of a document and of parts of one, each by one walk (RFC 4826, sections 3.2, 3.4.5,
//! 4.2 and 4.4.5).
ghost use Rattle.std.specs.Prelude.{◌≡◌, ◌≤◌, ◌+◌, ◌∷◌, [], ◌↔◌, length, IsTrue};
ghost use Rattle.xml_names.specs.declared.limits.TheConstants.{MAX_LEVELS};
ghost use Rattle.xml_tree.specs.Tree.{content_height, height, child_elements_of};
ghost use Rattle.xml_tree.specs.declared.path.TheConstants.{PATH_LIMIT};
ghost use Rattle.xml_tree.specs.declared.tree.Node.TheVariants.{Elem};
ghost use Rattle.usage_docs.specs.UniqueKeys.{IsFirstClash, RepeatsKeyAt};
ghost use Rattle.usage_docs.specs.ReferenceForms.{MeetsConstraints, IsFormedNode};
ghost use Rattle.usage_docs.specs.Validation.{HasFirstFault};
ghost use Rattle.usage_docs.specs.Validity.{IsValidDocument, IsValidChild};
ghost use Rattle.usage_docs.specs.readers.FirstFaults.{fault_of_result};
ghost use Rattle.usage_docs.specs.readers.SiblingElements.{IsFirstInOrder};

use crate::attributes::are_attrs_allowed;
use crate::key_repeats::Clash;
use crate::path_trail::Trail;
use crate::schema_table::{ElementKind, is_root, kind_of, root_kind};
use crate::validation_result::{ValidationResult, walk_if_kind, walk_inside};
use doc_names::Usage;
use std::alloc::Global;
use xml_names::index_decls;
use xml_tree::{Element, LinkedScope, Path};

/// Why a tree isn't a document of its usage.
#[derive(Debug, Drop)]
pub enum Fault {
    /// Its elements, attributes or texts don't follow the usage's schema.
    Invalid,
    /// A reference in it doesn't have its form.
    Unformed,
    /// This is the first element whose key repeats a sibling's key.
    Repeated(Clash),
}

// What is found in a root, in the scope of its declarations.
fn find_in_scope(
    alloc: Global,
    usage: Usage,
    scope: &LinkedScope<'_>,
    root: &Element,
) -> ValidationResult
    requires { scope.now ≡ root.now.decls ∷ [] }
    ensures valid_root { IsTrue result.valid ↔ IsValidDocument usage root.now }
    ensures formed_root { IsTrue result.formed ↔ MeetsConstraints usage root.now }
    ensures first_root_clash { height root.now ≤ MAX_LEVELS
        → IsFirstClash usage root.now result.clash }
{
    let kind = root_kind(usage);
    let mut found = ValidationResult::no_fault();
    found.valid = is_root(usage, scope, root.name()) & are_attrs_allowed(kind, scope, root.attrs());
    let path = Path::root();
    walk_inside(alloc, kind, scope, root, &Trail::at(&path), &mut found);
    found
}

// What is found in a root.
fn find_in_root(alloc: Global, usage: Usage, root: &Element) -> ValidationResult
    ensures valid_document { IsTrue result.valid ↔ IsValidDocument usage root.now }
    ensures formed_document { IsTrue result.formed ↔ MeetsConstraints usage root.now }
    ensures first_document_clash { height root.now ≤ MAX_LEVELS
        → IsFirstClash usage root.now result.clash }
{
    let declared = index_decls(alloc, root.decls());
    find_in_scope(alloc, usage, &LinkedScope::empty().inside(&declared), root)
}

// What is found in a child, in the scope around it and by the kind of its parent.
fn find_in_child(
    alloc: Global,
    row: ElementKind,
    scope: &LinkedScope<'_>,
    child_element: &Element,
) -> ValidationResult
    ensures valid_child { IsTrue result.valid ↔ IsValidChild row scope.now child_element.now }
    ensures formed_child { IsTrue result.formed
        ↔ IsFormedNode row scope.now (Elem child_element.now) }
{
    let declared = index_decls(alloc, child_element.decls());
    let inside = (&*scope).inside(&declared);
    let kind = kind_of(row, &inside, child_element.name());
    let mut found = ValidationResult::no_fault();
    let path = Path::root();
    walk_if_kind(
        alloc,
        kind,
        &inside,
        child_element,
        &Trail::at(&path),
        &mut found,
    );
    found
}

// The first fault of a validation result.
fn fault_of_result(found: ValidationResult) -> Option<Fault>
    ensures exact { result ≡ fault_of_result found }
{
    if !found.valid {
        return Some(Fault::Invalid);
    }
    if !found.formed {
        return Some(Fault::Unformed);
    }
    match found.clash {
        Some(clash) => Some(Fault::Repeated(clash)),
        None => None,
    }
}

/// The first fault of a tree, by the schema, then the form of references, then the keys. None
/// exactly when the tree is a document of the usage. Without memory for all keys they are
/// compared pairwise.
pub fn first_fault(alloc: Global, usage: Usage, root: &Element) -> Option<Fault>
    requires height_bounded { height root.now ≤ MAX_LEVELS }
    ensures has_first_fault { HasFirstFault usage root.now result }
{
    let found = find_in_root(alloc, usage, root);
    fault_of_result(found)
}

/// Whether a document is valid for its usage.
pub fn schema(alloc: Global, usage: Usage, root: &Element) -> bool
    ensures valid_iff { IsTrue result ↔ IsValidDocument usage root.now }
{
    find_in_root(alloc, usage, root).valid
}

/// Whether every `ref`, `anchor` and `resource-list` of a document has its form.
pub fn constraints(alloc: Global, usage: Usage, root: &Element) -> bool
    ensures exact { IsTrue result ↔ MeetsConstraints usage root.now }
{
    find_in_root(alloc, usage, root).formed
}

/// The first element in document order whose key equals the key of an earlier sibling of its
/// kind: None exactly when keys are unique. Without memory for all keys they are compared
/// pairwise.
pub fn first_clash(alloc: Global, usage: Usage, root: &Element) -> Option<Clash>
    requires { height root.now ≤ MAX_LEVELS }
    ensures first_of_clashes { IsFirstClash usage root.now result }
{
    find_in_root(alloc, usage, root).clash
}

/// Whether a child is valid by itself, in the scope around it and by the kind of its parent: it
/// is foreign, or valid by its own kind.
pub fn is_valid_child(
    alloc: Global,
    row: ElementKind,
    scope: &LinkedScope<'_>,
    child_element: &Element,
) -> bool
    ensures exact { IsTrue result ↔ IsValidChild row scope.now child_element.now }
{
    find_in_child(alloc, row, scope, child_element).valid
}

/// Whether the references of a child and of its descendants have their form, in the scope around
/// it and by the kind of its parent.
pub fn is_formed_child(
    alloc: Global,
    row: ElementKind,
    scope: &LinkedScope<'_>,
    child_element: &Element,
) -> bool
    ensures exact { IsTrue result ↔ IsFormedNode row scope.now (Elem child_element.now) }
{
    find_in_child(alloc, row, scope, child_element).formed
}

/// The first clash below an element of this kind at a path, in the scope inside it: the first
/// element in document order whose key equals the key of an earlier sibling of its kind.
/// Without memory for all keys they are compared pairwise.
pub fn clash_below(
    alloc: Global,
    row: ElementKind,
    scope: &LinkedScope<'_>,
    element: &Element,
    path: &Path,
) -> Option<Clash>
    requires height_bounded { length path.now + content_height element.now.content ≤ PATH_LIMIT }
    ensures first_iff { IsFirstInOrder
        (RepeatsKeyAt row scope.now (child_elements_of element.now)) path.now result }
{
    let mut found = ValidationResult::no_fault();
    walk_inside(alloc, row, scope, element, &Trail::at(path), &mut found);
    found.clash
}
