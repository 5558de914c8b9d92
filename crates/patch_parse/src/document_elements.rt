//! The form of diff documents: `document`s, and the operations in them (RFC 5874, section 3).
ghost use Rattle.std.specs.Prelude.{◌≡◌, ◌<◌, ◌||◌, IfOk, chars, codes, is_some, map, length};
ghost use Rattle.std.specs.List.{list_all};
ghost use Rattle.std.specs.Option.{option_copied};
ghost use Rattle.xml_tree.specs.declared.scope.TheConstants.{SCOPE_LIMIT};
ghost use Rattle.patch_rules.specs.PatchOperations.{plain_value};
ghost use Rattle.patch_rules.specs.Replay.{documents, has_diff_name, is_document, is_notice};
ghost use Rattle.patch_rules.specs.Replay.{is_operation, is_body_unchanged};
ghost use Rattle.patch_parse.specs.inner.DiffNames.{is_tagged};
ghost use Rattle.patch_parse.specs.Operations.{operations_in_scope};

use crate::diff_names::{has_diff_name, is_in_diff_namespace, plain_value};
use std::alloc::{AllocError, Global};
use xml_names::Text;
use xml_tree::{Element, Node, Scope};

// Whether an element of a diff document is a `document`, in the scope at the root.
#[tactic(auto, using(crate::proofs::Words::words))]
fn is_document_element(scope: &Scope<'_>, element: &Element) -> bool
    requires { length scope.now < SCOPE_LIMIT }
    ensures exact { result ≡ has_diff_name scope.now (codes "document") element.now }
{
    has_diff_name(scope, "document", element)
}

/// The `document`s of a diff document, in its order (RFC 5874, section 3); other elements, texts
/// and comments are ignored.
///
/// # Errors
/// `AllocError` when out of memory.
#[tactic(auto, using(xml_tree::proofs::Places::places))]
pub fn documents(alloc: Global, notice: &Element) -> Result<Vec<&Element>, AllocError>
    ensures ok { IfOk result (λ all. map (λ x. x.now) all.items ≡ documents notice.now) }
{
    let scope = Scope::empty().with(notice.decls());
    let mut all = Vec::new(alloc);
    for node in notice.nodes() {
        if let Node::Elem(child_element) = node {
            if is_document_element(&scope, child_element) {
                all.push(child_element)?;
            }
        }
    }
    Ok(all)
}

/// The operations of a `document`, in the scope at it: its child elements in the namespace of diff
/// documents.
///
/// # Errors
/// `AllocError` when out of memory.
#[tactic(auto, using(xml_tree::proofs::Places::places))]
pub fn operations_of_document<'a>(
    alloc: Global,
    scope: &Scope<'_>,
    document: &'a Element,
) -> Result<Vec<&'a Element>, AllocError>
    requires { length scope.now < SCOPE_LIMIT }
    ensures ok { IfOk result
        (λ all. map (λ x. x.now) all.items ≡ operations_in_scope scope.now document.now) }
{
    let mut all = Vec::new(alloc);
    for node in document.nodes() {
        if let Node::Elem(child_element) = node {
            if is_in_diff_namespace(scope, child_element) {
                all.push(child_element)?;
            }
        }
    }
    Ok(all)
}

/// Whether operations say that the body is the same: a single `body-not-changed`.
#[tactic(auto, using(crate::proofs::Words::words))]
pub fn is_body_unchanged(scope: &Scope<'_>, operations: &[&Element]) -> bool
    requires { length scope.now < SCOPE_LIMIT }
    ensures exact { result ≡ is_body_unchanged scope.now (map (λ x. x.now) operations.now) }
{
    match operations {
        [one] => has_diff_name(scope, "body-not-changed", one),
        _ => false,
    }
}

// Whether an element is an operation.
#[tactic(auto, using(crate::proofs::Words::words))]
fn is_operation(scope: &Scope<'_>, element: &Element) -> bool
    requires { length scope.now < SCOPE_LIMIT }
    ensures exact { result ≡ is_operation scope.now element.now }
{
    has_diff_name(scope, "add", element)
        || (has_diff_name(scope, "replace", element) || has_diff_name(scope, "remove", element))
}

// Whether all elements are operations.
fn are_operations(scope: &Scope<'_>, operations: &[&Element]) -> bool
    requires { length scope.now < SCOPE_LIMIT }
    ensures ok { result ≡ list_all (is_operation scope.now) (map (λ x. x.now) operations.now) }
{
    for operation in operations {
        if !is_operation(scope, operation) {
            return false;
        }
    }
    true
}

// Whether an element has an attribute of this local name without prefix.
fn has_plain_attr(element: &Element, word: &str) -> bool
    ensures exact { result ≡ is_some (plain_value (chars word.now) element.now.attrs) }
{
    plain_value(element.attrs(), word).is_some()
}

/// The etag after the change.
#[tactic(auto, using(crate::proofs::Words::words))]
pub fn new_tag(document: &Element) -> Option<&Text>
    ensures exact { option_copied result ≡ plain_value (codes "new-etag") document.now.attrs }
{
    plain_value(document.attrs(), "new-etag")
}

/// The etag before the change.
#[tactic(auto, using(crate::proofs::Words::words))]
pub fn previous_tag(document: &Element) -> Option<&Text>
    ensures exact { option_copied result ≡ plain_value (codes "previous-etag") document.now.attrs }
{
    plain_value(document.attrs(), "previous-etag")
}

// Whether a `document` has at least one etag.
fn has_tag(document: &Element) -> bool
    ensures exact { result
        ≡ (is_some (plain_value (codes "new-etag") document.now.attrs) || is_some
        (plain_value (codes "previous-etag") document.now.attrs)) }
{
    new_tag(document).is_some() || previous_tag(document).is_some()
}

// Whether a `document` has a `sel`.
#[tactic(auto, using(crate::proofs::Words::words))]
fn has_sel(document: &Element) -> bool
    ensures ok { result ≡ is_some (plain_value (codes "sel") document.now.attrs) }
{
    has_plain_attr(document, "sel")
}

// Whether a `document` has a `sel` and at least one etag.
fn has_sel_and_tag(document: &Element) -> bool
    ensures exact { result ≡ is_tagged document.now.attrs }
{
    has_sel(document) && has_tag(document)
}

// Whether a `document` has the form of one, in the scope around it.
fn is_document(alloc: Global, scope: &Scope<'_>, document: &Element) -> Result<bool, AllocError>
    requires { length scope.now < 66 }
    ensures ok { IfOk result (λ is. is ≡ is_document scope.now document.now) }
{
    if !has_sel_and_tag(document) {
        return Ok(false);
    }
    let here = scope.with(document.decls());
    let operations = operations_of_document(alloc, &here, document)?;
    Ok(is_body_unchanged(&here, &operations) || are_operations(&here, &operations))
}

// Whether all `document`s have the form of one.
fn are_documents(
    alloc: Global,
    scope: &Scope<'_>,
    documents: &[&Element],
) -> Result<bool, AllocError>
    requires { length scope.now < 66 }
    ensures ok { IfOk result
        (λ are. are ≡ list_all (is_document scope.now) (map (λ x. x.now) documents.now)) }
{
    for document in documents {
        if !is_document(alloc, scope, document)? {
            return Ok(false);
        }
    }
    Ok(true)
}

/// Whether a tree has the form of a diff document: an `xcap-diff` with an `xcap-root`, each of
/// whose `document`s has a `sel` and an etag, and has operations or a single `body-not-changed`
/// (RFC 5874, section 3).
///
/// # Errors
/// `AllocError` when out of memory.
#[tactic(auto, using(crate::proofs::Words::words))]
pub fn is_notice(alloc: Global, tree: &Element) -> Result<bool, AllocError>
    ensures exact { IfOk result (λ is. is ≡ is_notice tree.now) }
{
    if !has_diff_name(&Scope::empty(), "xcap-diff", tree) {
        return Ok(false);
    }
    if !has_plain_attr(tree, "xcap-root") {
        return Ok(false);
    }
    let documents = documents(alloc, tree)?;
    are_documents(alloc, &Scope::empty().with(tree.decls()), &documents)
}
