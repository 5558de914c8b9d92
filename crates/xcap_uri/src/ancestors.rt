//! The URIs in an error document for a missing parent (RFC 4825, section 11).
ghost use Rattle.std.specs.Prelude.{◌≡◌, ◌≤◌, ℕ, List, [], ◌∷◌, ◌++◌, IfOk, OnOk, chars, codes};
ghost use Rattle.std.specs.Prelude.{flat_map, take};
ghost use Rattle.xml_names.specs.declared.limits.TheConstants.{MAX_LEVELS};
ghost use Rattle.xml_tree.specs.Tree.{height};
ghost use Rattle.xml_tree.specs.PathTexts.{path_text};
ghost use Rattle.node_select.specs.Selection.{longest_match_in, selected_element_path};
ghost use Rattle.doc_names.specs.DocIds.{id_text};
ghost use Rattle.xcap_uri.specs.Ancestors.{ancestor_uri, bracket_escape, home_uri};

use crate::root::Root;
use doc_names::{Auid, DocId, Home, print_doc_id};
use node_select::{Selector, longest_match, select_steps};
use std::alloc::{AllocError, Global};
use xml_names::Text;
use xml_tokens::empty_text;
use xml_tree::{Element, Path, print_path};

// The root, a slash and this path.
fn uri_under(alloc: Global, root: &Root, path: &str) -> Result<Text, AllocError>
    ensures ok { IfOk result (λ uri. uri ≡ root.now ++ (codes "/" ++ chars path.now)) }
{
    let mut uri = Text::from(alloc, root.text())?;
    uri.push('/')?;
    uri.push_str(path)?;
    Ok(uri)
}

// A text without its last character.
fn drop_last_char(text: &str) -> &str
    ensures drops_last { (front : List ℕ) (c : ℕ) → chars text.now ≡ front ++ c ∷ []
        → chars result.now ≡ front }
{
    let mut letters = text.chars();
    let _ = letters.next_back();
    letters.as_str()
}

// The id of a document with an empty name: its home's and a slash.
fn unnamed_id(alloc: Global, auid: Auid, home: &Home) -> Result<Text, AllocError>
    ensures ok { IfOk result
        (λ id. id ≡ id_text (record { auid = auid; home = home.now; name = [] })) }
{
    let home = home.copy(alloc)?;
    let unnamed = DocId {
        auid,
        home,
        name: empty_text(alloc),
    };
    print_doc_id(alloc, &unnamed)
}

/// The URI of a home: the root, the AUID, and `global` or `users` and the user, escaped.
///
/// # Errors
/// `AllocError` when out of memory.
pub fn home_uri(alloc: Global, root: &Root, auid: Auid, home: &Home) -> Result<Text, AllocError>
    ensures ok { IfOk result (λ uri. uri ≡ home_uri root.now auid home.now) }
{
    let id = unnamed_id(alloc, auid, home)?;
    uri_under(alloc, root, drop_last_char(id.as_str()))
}

// The URI of a document.
fn document_uri(alloc: Global, root: &Root, doc: &DocId) -> Result<Text, AllocError>
    ensures ok { IfOk result (λ uri. uri ≡ root.now ++ (codes "/" ++ id_text doc.now)) }
{
    let id = print_doc_id(alloc, doc)?;
    uri_under(alloc, root, id.as_str())
}

// Appends a character of a node selector.
#[tactic(auto, using(crate::proofs::Letters::letters))]
fn push_escaped(uri: &mut Text, c: char) -> Result<(), AllocError>
    ensures appended { OnOk result (uri.new ≡ uri.old ++ bracket_escape c) }
{
    match c {
        '[' => uri.push_str("%5B"),
        ']' => uri.push_str("%5D"),
        _ => uri.push(c),
    }
}

// Appends a node selector.
fn push_selector(uri: &mut Text, selector: &str) -> Result<(), AllocError>
    ensures appended { OnOk result
        (uri.new ≡ uri.old ++ flat_map bracket_escape (chars selector.now)) }
{
    for c in selector.chars() {
        push_escaped(uri, c)?;
    }
    Ok(())
}

// Appends what comes after the document's URI in the URI of the element at a path.
#[tactic(auto, using(crate::proofs::Letters::letters, std::proofs::Common::append_assoc))]
fn push_path(alloc: Global, uri: &mut Text, path: &Path) -> Result<(), AllocError>
    ensures appended { OnOk result
        (uri.new ≡ uri.old ++ (codes "/~~/" ++ flat_map bracket_escape (path_text path.now))) }
{
    let selector = print_path(alloc, path)?;
    uri.push_str("/~~/")?;
    push_selector(uri, selector.as_str())
}

// The path of the element that the longest prefix of the steps selects.
fn closest_path(alloc: Global, tree: &Element, selector: &Selector) -> Option<Path>
    requires { height tree.now ≤ MAX_LEVELS }
    ensures exact { result
        ≡ selected_element_path
        (take (longest_match_in selector.now.steps tree.now) selector.now.steps) tree.now }
{
    let matched = longest_match(alloc, tree, selector);
    select_steps(alloc, tree, &selector.steps.as_slice()[..matched])
}

/// The URI of the closest ancestor of a node that doesn't exist: of the element that the longest
/// prefix of the steps selects, or of the document where not even the first step selects the root.
/// The element is named by its position, as `*/*[2]` with its brackets escaped.
///
/// # Errors
/// `AllocError` when out of memory.
pub fn ancestor_uri(
    alloc: Global,
    root: &Root,
    doc: &DocId,
    tree: &Element,
    selector: &Selector,
) -> Result<Text, AllocError>
    requires { height tree.now ≤ MAX_LEVELS }
    ensures ok { IfOk result
        (λ uri. uri ≡ ancestor_uri root.now doc.now tree.now selector.now.steps) }
{
    let mut uri = document_uri(alloc, root, doc)?;
    if let Some(path) = closest_path(alloc, tree, selector) {
        push_path(alloc, &mut uri, &path)?;
    }
    Ok(uri)
}
