// The error that an error document names (RFC 4825, section 11).
ghost use Rattle.std.specs.Prelude.{◌≡◌, [], ◌∷◌, chars, option_map, IfOk};
ghost use Rattle.std.specs.Str.{bytes_eq};
ghost use Rattle.xml_names.specs.Scopes.{bound_uri};
ghost use Rattle.xcap_client.specs.ErrorDocuments.{NamesError, error_name_of, error_uri};
ghost use Rattle.xcap_client.specs.ErrorDocuments.{is_error_document};

use std::alloc::{AllocError, Global};
use tree_text::read_document;
use xml_names::{MAX_LEVELS, ReadError, Text};
use xml_tree::{Element, Scope};

fn is_error_uri(uri: &str) -> bool
    ensures exact { result ≡ bytes_eq (chars uri.now) error_uri }
{
    uri == "urn:ietf:params:xml:ns:xcap-error"
}

// The namespace of a root element.
fn root_uri(root: &Element) -> Option<&str>
    ensures exact { option_map (λ uri. chars uri.now) result
        ≡ bound_uri (root.now.decls ∷ []) root.now.name.prefix }
{
    let scope = Scope::empty().with(root.decls());
    scope.resolve(root.name().prefix.as_str())
}

// Whether an element is the root of an error document.
fn is_error_document(root: &Element) -> bool
    ensures exact { result ≡ is_error_document root.now }
{
    match root_uri(root) {
        Some(uri) => is_error_uri(uri) && root.name().local.is("xcap-error"),
        None => false,
    }
}

// The error that a document names, if it is an error document.
fn error_name_in(alloc: Global, root: &Element) -> Result<Option<Text>, AllocError>
    ensures ok { IfOk result (λ name. name ≡ error_name_of (Ok root.now)) }
{
    if !is_error_document(root) {
        return Ok(None);
    }
    match root.child_element(0) {
        Some(child_element) => {
            let local = child_element.name().local.as_str();
            Ok(Some(Text::from(alloc, local)?))
        }
        None => Ok(None),
    }
}

// The error that the body of a response names, if it is an error document.
pub fn error_name_of(alloc: Global, body: &[u8]) -> Result<Option<Text>, AllocError>
    ensures names_error { IfOk result (NamesError body.now) }
{
    match read_document(alloc, body, MAX_LEVELS) {
        Ok(root) => error_name_in(alloc, &root),
        Err(ReadError::Fault(_)) => Ok(None),
        Err(ReadError::NoMemory) => Err(AllocError),
    }
}
