//! Attributes of the elements in the schema table, and keys among them (RFC 4826, sections 3.2,
//! 3.4.5, 4.2 and 4.4.5).
ghost use Rattle.std.specs.Prelude.{◌≡◌, ◌&&◌, false, not, Some, None, IsTrue, bytes_eq, chars};
ghost use Rattle.std.specs.Prelude.{option_map, is_some};
ghost use Rattle.usage_docs.specs.SchemaTable.{lists_namespace, services_namespace};
ghost use Rattle.usage_docs.specs.SchemaTable.{element_namespace};
ghost use Rattle.std.specs.List.{list_all};
ghost use Rattle.std.specs.Option.{option_map_or};
ghost use Rattle.usage_docs.specs.AsciiTexts.{is_ascii};
ghost use Rattle.usage_docs.specs.KeyAttributes.{attribute_name, attribute_of, key_of};
ghost use Rattle.usage_docs.specs.KeyAttributes.{is_key_attribute, value_of, key_value};
ghost use Rattle.usage_docs.specs.KeyAttributes.{is_attr_allowed, are_attrs_allowed};
ghost use Rattle.usage_docs.specs.KeyAttributes.{has_required_attribute};

use crate::schema_table::{
    Attribute, ElementKind, Key, is_word, lists_namespace, services_namespace,
};
use xml_names::{Attr, Text};
use xml_tree::LinkedScope;

impl Key {
    /// The local name of the attribute. Does not allocate.
    #[tactic(auto, unfolding(crate::specs::KeyAttributes::attribute_name))]
    pub fn attribute_name(self) -> &'static str
        ensures expected_word { result.now ≡ attribute_name self }
        ensures is_ascii_alone { IsTrue (is_ascii result.now) }
    {
        match self {
            Key::Name => "name",
            Key::Uri => "uri",
            Key::Ref => "ref",
            Key::Anchor => "anchor",
        }
    }
}

/// The attributes without a namespace that an element of a kind may have. Does not allocate.
#[tactic(auto, unfolding(crate::specs::KeyAttributes::attribute_of))]
fn attribute_of(kind: ElementKind) -> Attribute
    ensures exact { result ≡ attribute_of kind }
{
    match kind {
        ElementKind::EntryList => Attribute::May(Key::Name),
        ElementKind::Entry => Attribute::Must(Key::Uri),
        ElementKind::EntryRef => Attribute::Must(Key::Ref),
        ElementKind::External => Attribute::Must(Key::Anchor),
        ElementKind::Service => Attribute::Must(Key::Uri),
        _ => Attribute::Nothing,
    }
}

/// The one attribute without a namespace that an element of this kind takes, which is its key.
/// Does not allocate.
#[tactic(auto, unfolding(crate::specs::KeyAttributes::key_of))]
pub fn key_of(kind: ElementKind) -> Option<Key>
    ensures exact { result ≡ key_of kind }
{
    match attribute_of(kind) {
        Attribute::May(key) => Some(key),
        Attribute::Must(key) => Some(key),
        Attribute::Nothing => None,
    }
}

// Whether an attribute is unprefixed and has this key's name.
fn is_key_attribute(key: Key, attr: &Attr) -> bool
    ensures exact { result ≡ is_key_attribute key attr.now }
{
    is_word(attr.name.prefix.as_str(), "")
        && is_word(attr.name.local.as_str(), key.attribute_name())
}

// The text of a key, if it is there.
#[tactic(auto, unfolding(crate::specs::KeyAttributes::value_of))]
fn key_attribute_text<'a>(key: Key, attrs: &'a [Attr]) -> Option<&'a Text>
    ensures exact { option_map (λ text. text.now) result ≡ value_of key attrs.now }
{
    for attr in attrs {
        if is_key_attribute(key, attr) {
            return Some(&attr.value);
        }
    }
    None
}

/// The value of a key, if it is there. Does not allocate.
pub fn value_of<'a>(key: Key, attrs: &'a [Attr]) -> Option<&'a str>
    ensures exact { option_map (λ value. chars value.now) result ≡ value_of key attrs.now }
{
    match key_attribute_text(key, attrs) {
        Some(text) => Some(text.as_str()),
        None => None,
    }
}

/// The text of the key that elements of this kind have, if it is there. Does not allocate.
#[tactic(auto, unfolding(crate::specs::KeyAttributes::key_value))]
pub(crate) fn key_text<'a>(kind: ElementKind, attrs: &'a [Attr]) -> Option<&'a Text>
    ensures exact { option_map (λ text. text.now) result ≡ key_value kind attrs.now }
{
    match key_of(kind) {
        Some(key) => key_attribute_text(key, attrs),
        None => None,
    }
}

/// The value of the key that elements of this kind have, if it is there. Does not allocate.
pub fn key_value<'a>(kind: ElementKind, attrs: &'a [Attr]) -> Option<&'a str>
    ensures exact { option_map (λ value. chars value.now) result ≡ key_value kind attrs.now }
{
    match key_text(kind, attrs) {
        Some(text) => Some(text.as_str()),
        None => None,
    }
}

// The namespace of a prefixed attribute.
fn element_namespace<'a>(scope: &LinkedScope<'a>, attr: &Attr) -> &'a str
    ensures exact { chars result.now ≡ element_namespace scope.now attr.now.name }
{
    match scope.resolve(&attr.name.prefix) {
        Some(space) => space,
        None => "",
    }
}

// Whether a namespace is of neither document type.
fn is_foreign_namespace(space: &str) -> bool
    ensures exact { result
        ≡ (not (bytes_eq (chars space.now) lists_namespace) && not
        (bytes_eq (chars space.now) services_namespace)) }
{
    !is_word(space, lists_namespace()) && !is_word(space, services_namespace())
}

// Whether this is the local name of the kind's own attribute.
fn is_own_attribute(row: ElementKind, local: &str) -> bool
    ensures exact { result
        ≡ option_map_or
        (λ key. bytes_eq (chars local.now) (attribute_name key)) (key_of row) false }
{
    match key_of(row) {
        Some(key) => is_word(local, key.attribute_name()),
        None => false,
    }
}

// Whether an attribute is allowed in an element of this kind.
#[tactic(auto, unfolding(crate::specs::KeyAttributes::is_attr_allowed))]
fn is_attr_allowed(row: ElementKind, scope: &LinkedScope<'_>, attr: &Attr) -> bool
    ensures exact { result ≡ is_attr_allowed row scope.now attr.now }
{
    if is_word(attr.name.prefix.as_str(), "") {
        return is_own_attribute(row, attr.name.local.as_str());
    }
    is_foreign_namespace(element_namespace(scope, attr))
}

// Whether the required attribute of an element of this kind is there, if it has one.
fn has_required(row: ElementKind, attrs: &[Attr]) -> bool
    ensures exact { result ≡ has_required_attribute (attribute_of row) attrs.now }
{
    match attribute_of(row) {
        Attribute::Must(key) => has_value(key, attrs),
        Attribute::May(_) => true,
        Attribute::Nothing => true,
    }
}

// Whether the attribute of a key is there.
fn has_value(key: Key, attrs: &[Attr]) -> bool
    ensures exact { result ≡ is_some (value_of key attrs.now) }
{
    value_of(key, attrs).is_some()
}

// Whether each attribute is allowed in an element of this kind.
fn are_all_allowed(row: ElementKind, scope: &LinkedScope<'_>, attrs: &[Attr]) -> bool
    ensures exact { result ≡ list_all (is_attr_allowed row scope.now) attrs.now }
{
    for attr in attrs {
        if !is_attr_allowed(row, scope, attr) {
            return false;
        }
    }
    true
}

/// Whether an element of this kind may have these attributes, in the scope that ends with its own
/// declarations. Does not allocate.
#[tactic(auto, unfolding(crate::specs::KeyAttributes::are_attrs_allowed))]
pub fn are_attrs_allowed(row: ElementKind, scope: &LinkedScope<'_>, attrs: &[Attr]) -> bool
    ensures exact { result ≡ are_attrs_allowed row scope.now attrs.now }
{
    are_all_allowed(row, scope, attrs) && has_required(row, attrs)
}
