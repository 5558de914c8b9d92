//! Names of elements and attributes, and what they mean.
ghost use Rattle.std.specs.Prelude.{◌≡◌, ◌<◌, [], option_map, chars, length};
ghost use Rattle.xml_tree.specs.declared.scope.TheConstants.{SCOPE_LIMIT};
ghost use Rattle.xml_names.specs.Attributes.{has_qname};
ghost use Rattle.std.specs.List.{list_all};
ghost use Rattle.std.specs.Option.{option_copied};
ghost use Rattle.std.specs.Str.{bytes_eq};
ghost use Rattle.xml_names.specs.Scopes.{bound_uri};
ghost use Rattle.patch_rules.specs.PatchOperations.{is_known_attribute, plain_value};
ghost use Rattle.patch_rules.specs.Notices.{diff_uri};
ghost use Rattle.patch_rules.specs.Replay.{has_diff_name, is_in_diff_namespace};
ghost use Rattle.patch_parse.specs.inner.DiffNames.{is_diff_name};

use xml_names::{Attr, Name, Prefix, Text};
use xml_tree::{Element, Scope};

// ---- attributes without prefix

// Whether an attribute has this local name, without prefix.
fn is_plain_attr(attr: &Attr, word: &str) -> bool
    ensures exact { result
        ≡ has_qname (record { prefix = []; local = chars word.now }) attr.now }
{
    attr.name.has_no_prefix() && attr.name.local.is(word)
}

/// The value of the attribute of this local name that has no prefix.
pub fn plain_value<'a>(attrs: &'a [Attr], word: &str) -> Option<&'a Text>
    ensures exact { option_copied result ≡ plain_value (chars word.now) attrs.now }
{
    for attr in attrs {
        if is_plain_attr(attr, word) {
            return Some(&attr.value);
        }
    }
    None
}

// Whether an attribute has a prefix, or is one that operations have.
#[tactic(auto, using(crate::proofs::Words::words))]
fn is_known_attribute(attr: &Attr) -> bool
    ensures exact { result ≡ is_known_attribute attr.now }
{
    let local = &attr.name.local;
    !attr.name.has_no_prefix()
        || (local.is("sel") || (local.is("pos") || (local.is("type") || local.is("ws"))))
}

/// Whether each attribute has a prefix, or is one that operations have.
pub fn are_known_attributes(attrs: &[Attr]) -> bool
    ensures exact { result ≡ list_all is_known_attribute attrs.now }
{
    attrs.iter().all(|attr| is_known_attribute(attr))
}

// ---- elements of diff documents

// The URI that a prefix is bound to in a scope.
pub(crate) fn resolve_prefix<'a>(scope: &Scope<'a>, prefix: &Prefix) -> Option<&'a str>
    ensures exact { option_map (λ x. chars x.now) result ≡ bound_uri scope.now prefix.now }
{
    scope.resolve(prefix.as_str())
}

// Whether a URI is the namespace of diff documents (RFC 5874, section 7.2).
fn is_diff_uri(uri: &str) -> bool
    ensures exact { result ≡ bytes_eq (chars uri.now) diff_uri }
{
    uri == "urn:ietf:params:xml:ns:xcap-diff"
}

// Whether a name is in the namespace of diff documents, in the scope that ends with the
// declarations of its element.
fn is_diff_name(scope: &Scope<'_>, name: &Name) -> bool
    ensures exact { result ≡ is_diff_name scope.now name.now }
{
    match resolve_prefix(scope, &name.prefix) {
        None => false,
        Some(uri) => is_diff_uri(uri),
    }
}

/// Whether an element is in the namespace of diff documents, in the scope around it.
pub(crate) fn is_in_diff_namespace(scope: &Scope<'_>, element: &Element) -> bool
    requires { length scope.now < SCOPE_LIMIT }
    ensures exact { result ≡ is_in_diff_namespace scope.now element.now }
{
    is_diff_name(&scope.with(element.decls()), element.name())
}

/// Whether an element has this name in the namespace of diff documents.
pub(crate) fn has_diff_name(scope: &Scope<'_>, word: &str, element: &Element) -> bool
    requires { length scope.now < SCOPE_LIMIT }
    ensures exact { result ≡ has_diff_name scope.now (chars word.now) element.now }
{
    element.name().local.is(word) && is_in_diff_namespace(scope, element)
}
