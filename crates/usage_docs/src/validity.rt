//! Texts allowed in an element (RFC 4826, sections 3.2 and 4.2).
ghost use Rattle.std.specs.Prelude.{◌≡◌, chars};
ghost use Rattle.std.specs.List.{list_all};
ghost use Rattle.xml_names.specs.Characters.{is_space};
ghost use Rattle.usage_docs.specs.SchemaTable.{content_model_of};
ghost use Rattle.usage_docs.specs.Validity.{is_text_model, is_text_allowed};

use crate::schema_table::ElementKind;
use xml_names::is_space;

// Whether the content model of this kind is text alone.
#[tactic(auto, unfolding(crate::specs::SchemaTable::content_model_of))]
fn takes_text(row: ElementKind) -> bool
    ensures exact { result ≡ is_text_model (content_model_of row) }
{
    matches!(
        row,
        ElementKind::DisplayName | ElementKind::ResourceList | ElementKind::Package
    )
}

// Whether a text is white space alone.
fn is_blank(text: &str) -> bool
    ensures exact { result ≡ list_all is_space (chars text.now) }
{
    text.chars().all(|c| is_space(c))
}

/// Whether a text is allowed in an element of this kind. Does not allocate.
#[tactic(auto, unfolding(crate::specs::Validity::is_text_allowed))]
pub(crate) fn is_text_allowed(row: ElementKind, text: &str) -> bool
    ensures exact { result ≡ is_text_allowed row (chars text.now) }
{
    takes_text(row) || is_blank(text)
}
