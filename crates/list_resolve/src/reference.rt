//! References, and their targets (RFC 4826, sections 3.4.5 and 4.4.5).
ghost use Rattle.std.specs.Prelude.{◌≡◌, ◌∷◌, ◌++◌, [], IfOk, chars};
ghost use Rattle.usage_docs.specs.declared.schema_table.ElementKind.TheVariants.{EntryRef};
ghost use Rattle.usage_docs.specs.declared.schema_table.ElementKind.TheVariants.{External};
ghost use Rattle.usage_docs.specs.ReferenceForms.{trim_text, trim_front, trim_back};
ghost use Rattle.usage_docs.specs.ContentTexts.{content_text};
ghost use Rattle.xml_names.specs.Characters.{is_space};
ghost use Rattle.xml_tree.specs.Tree.{last};
ghost use Rattle.xcap_uri.specs.Roots.{slash};
ghost use Rattle.list_resolve.specs.References.{is_wanted, reference_of};

use std::alloc::{AllocError, Global};
use usage_docs::{ElementKind, Key, value_of};
use xcap_uri::Root;
use xml_names::{Attr, Text, is_space};
use xml_tokens::{chars_of_text, empty_text, text_of};
use xml_tree::{Element, Node};

/// The kind of element that a reference has to lead to.
#[derive(Clone, Copy)]
pub(crate) enum ReferenceTarget {
    AnEntry,
    AList,
}

/// A reference: its target, and what that has to be.
#[derive(Drop)]
pub(crate) struct Reference {
    pub(crate) wanted: ReferenceTarget,
    pub(crate) target: Text,
}

impl ReferenceTarget {
    /// Whether a reference to such a target may lead to an element of this kind. Does not
    /// allocate.
    pub(crate) fn admits(self, kind: ElementKind) -> bool
        ensures exact { result ≡ is_wanted self kind }
    {
        match (self, kind) {
            (ReferenceTarget::AnEntry, ElementKind::Entry) => true,
            (ReferenceTarget::AList, ElementKind::EntryList) => true,
            _ => false,
        }
    }
}

// The target of a `ref` with this value.
fn ref_target(alloc: Global, root: &Root, value: &str) -> Result<Text, AllocError>
    ensures ok { IfOk result (λ made. made ≡ root.now ++ slash ∷ chars value.now) }
{
    let mut target = Text::from(alloc, root.text())?;
    target.push('/')?;
    target.push_str(value)?;
    Ok(target)
}

// The reference of an entry-ref.
fn entry_reference(
    alloc: Global,
    root: &Root,
    attrs: &[Attr],
) -> Result<Option<Reference>, AllocError>
    ensures ok { IfOk result (λ made. made ≡ reference_of root.now EntryRef attrs.now (last [])) }
{
    let Some(value) = value_of(Key::Ref, attrs) else {
        return Ok(None);
    };
    let target = ref_target(alloc, root, value)?;
    Ok(Some(Reference {
        wanted: ReferenceTarget::AnEntry,
        target,
    }))
}

// The reference of an external list.
fn external_reference(
    alloc: Global,
    root: &Root,
    attrs: &[Attr],
) -> Result<Option<Reference>, AllocError>
    ensures ok { IfOk result (λ made. made ≡ reference_of root.now External attrs.now (last [])) }
{
    let Some(value) = value_of(Key::Anchor, attrs) else {
        return Ok(None);
    };
    let target = Text::from(alloc, value)?;
    Ok(Some(Reference {
        wanted: ReferenceTarget::AList,
        target,
    }))
}

// The text of an element.
fn element_text(alloc: Global, element: &Element) -> Result<Text, AllocError>
    ensures ok { IfOk result (λ text. text ≡ content_text element.now.content) }
{
    let mut inside = empty_text(alloc);
    for node in element.nodes() {
        if let Node::Chars(text) = node {
            inside.push_str(text.as_str())?;
        }
    }
    Ok(inside)
}

// Without leading white space.
fn trim_front(mut letters: &[char]) -> &[char]
    ensures exact { result.now ≡ trim_front is_space letters.now }
{
    'blanks: while let [first, rest @ ..] = letters
        && is_space(*first)
    {
        letters = rest;
    }
    letters
}

// Without trailing white space.
fn trim_back(mut letters: &[char]) -> &[char]
    ensures exact { result.now ≡ trim_back is_space letters.now }
{
    'blanks: while let Some((last, rest)) = letters.split_last()
        && is_space(*last)
    {
        letters = rest;
    }
    letters
}

// The text of an element without leading and trailing white space.
#[tactic(auto, unfolding(usage_docs::specs::ReferenceForms::trim_text))]
fn trim_text(alloc: Global, element: &Element) -> Result<Text, AllocError>
    ensures trims_ends { IfOk result (λ text. text ≡ trim_text (content_text element.now.content)) }
{
    let inside = element_text(alloc, element)?;
    let letters = chars_of_text(alloc, inside.as_str())?;
    text_of(alloc, trim_back(trim_front(&letters)))
}

/// The reference that an element of this kind is, under this root.
///
/// # Errors
/// `AllocError` when out of memory.
pub(crate) fn reference_of(
    alloc: Global,
    root: &Root,
    kind: ElementKind,
    element: &Element,
) -> Result<Option<Reference>, AllocError>
    ensures ok { IfOk result
        (λ made. made ≡ reference_of root.now kind element.now.attrs element.now.content) }
{
    match kind {
        ElementKind::EntryRef => entry_reference(alloc, root, element.attrs()),
        ElementKind::External => external_reference(alloc, root, element.attrs()),
        ElementKind::ResourceList => {
            let target = trim_text(alloc, element)?;
            Ok(Some(Reference {
                wanted: ReferenceTarget::AList,
                target,
            }))
        }
        _ => Ok(None),
    }
}
