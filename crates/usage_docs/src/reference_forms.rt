//! The form of references (RFC 4826, sections 3.4.5 and 4.4.5).
ghost use Rattle.std.specs.Prelude.{◌≡◌, true};
ghost use Rattle.std.specs.Option.{option_map_or};
ghost use Rattle.usage_docs.specs.declared.schema_table.Key.TheVariants.{Ref, Anchor};
ghost use Rattle.usage_docs.specs.KeyAttributes.{value_of};
ghost use Rattle.usage_docs.specs.ReferenceForms.{is_http_uri, is_relative_reference};
ghost use Rattle.usage_docs.specs.ReferenceForms.{are_references_formed};

use crate::address_states::{is_http_uri, is_http_uri_inside, is_relative_reference};
use crate::attributes::value_of;
use crate::schema_table::{ElementKind, Key};
use xml_names::Attr;
use xml_tree::Element;

// Whether `ref` has its form, if it is there.
fn is_ref_formed(attrs: &[Attr]) -> bool
    ensures exact { result ≡ option_map_or is_relative_reference (value_of Ref attrs.now) true }
{
    match value_of(Key::Ref, attrs) {
        Some(value) => is_relative_reference(value),
        None => true,
    }
}

// Whether `anchor` has its form, if it is there.
fn is_anchor_formed(attrs: &[Attr]) -> bool
    ensures exact { result ≡ option_map_or is_http_uri (value_of Anchor attrs.now) true }
{
    match value_of(Key::Anchor, attrs) {
        Some(value) => is_http_uri(value),
        None => true,
    }
}

/// Whether the reference of an element of some kind has its form, if it is there: the `ref` of an
/// entry-ref, the `anchor` of an external list, the text of a resource-list. Does not allocate.
#[tactic(auto, unfolding(crate::specs::ReferenceForms::are_references_formed))]
pub fn are_references_formed(kind: ElementKind, element: &Element) -> bool
    ensures exact { result ≡ are_references_formed kind element.now.attrs element.now.content }
{
    match kind {
        ElementKind::EntryRef => is_ref_formed(element.attrs()),
        ElementKind::External => is_anchor_formed(element.attrs()),
        ElementKind::ResourceList => is_http_uri_inside(element),
        _ => true,
    }
}
