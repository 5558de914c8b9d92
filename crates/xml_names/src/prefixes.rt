//! What prefixes are bound to by lists of declarations (Namespaces in XML 1.0, sections 3 and 6).
ghost use Rattle.std.specs.Prelude.{◌≡◌, ◌<◌, [], map, option_map, chars};
ghost use Rattle.std.specs.Option.{option_copied};
ghost use Rattle.std.specs.Str.{bytes_eq};
ghost use Rattle.xml_names.specs.Scopes.{declared_uri, scope_decls, non_empty_uri, xml_prefix};
ghost use Rattle.xml_names.specs.Scopes.{xml_uri};
ghost use Rattle.xml_names.specs.Scopes.{xmlns_prefix};

use crate::names::Decl;
use crate::text::Text;

/// Whether a prefix is `xml`, which is always bound.
pub fn is_xml_prefix(prefix: &str) -> bool
    ensures exact { result ≡ bytes_eq (chars prefix.now) xml_prefix }
{
    prefix == "xml"
}

/// Whether a prefix is `xmlns`, which is never bound.
pub fn is_xmlns_prefix(prefix: &str) -> bool
    ensures exact { result ≡ bytes_eq (chars prefix.now) xmlns_prefix }
{
    prefix == "xmlns"
}

/// The namespace of `xml`. Does not allocate.
pub fn xml_uri() -> &'static str
    ensures namespace_of_xml { chars result.now ≡ xml_uri }
{
    "http://www.w3.org/XML/1998/namespace"
}

/// A URI, or None if it is empty, as that binds nothing. Does not allocate.
pub fn non_empty_uri<'a>(uri: Option<&'a Text>) -> Option<&'a str>
    ensures none_if_empty { option_map (λ text. chars text.now) result
        ≡ non_empty_uri (option_copied uri.entry) }
{
    match uri {
        Some(text) if !text.is_empty() => Some(text.as_str()),
        _ => None,
    }
}

/// The URI that the lists declare for a prefix; the last list is nearest. Does not allocate.
#[tactic(auto, using(crate::proofs::ScopeLemmas::declared_steps))]
pub fn nearest_uri<'a>(lists: &[&'a [Decl]], prefix: &str) -> Option<&'a Text>
    ensures exact { option_copied result
        ≡ declared_uri (scope_decls (map (λ x. x.now) lists.now)) (chars prefix.now) }
{
    let mut found = None;
    for list in lists {
        if let Some(uri) = declared_uri(list, prefix) {
            found = Some(uri);
        }
    }
    found
}

// The URI that a list declares for a prefix.
pub(crate) fn declared_uri<'a>(decls: &'a [Decl], prefix: &str) -> Option<&'a Text>
    ensures exact { option_copied result ≡ declared_uri decls.now (chars prefix.now) }
{
    let mut found = None;
    for decl in decls {
        if decl.prefix.is(prefix) {
            found = Some(&decl.uri);
        }
    }
    found
}
