//! Diff documents about single elements (RFC 5874, section 3).
ghost use Rattle.std.specs.Prelude.{◌≡◌, [], ◌∷◌, IfOk, OnOk, chars, encode_utf8_all, ◌++◌, codes};
ghost use Rattle.doc_names.specs.DocIds.{id_text};
ghost use Rattle.xml_tree.specs.Print.{document_print};
ghost use Rattle.element_watch.specs.ElementNotices.{element_notice, existence_element};
ghost use Rattle.element_watch.specs.ElementNotices.{existence_elements, boolean_text};
ghost use Rattle.patch_rules.specs.inner.AppendedElements.{with_elements};

use doc_names::{DocId, print_doc_id};
use patch_rules::{empty_notice, new_diff_element, push_plain_attr};
use std::alloc::{AllocError, Global};
use tree_print::print_document;
use xcap_io::Bytes;
use xcap_uri::Root;
use xml_names::{Prefix, Text};
use xml_tree::Element;

/// What became of an element since a known version of its document.
#[derive(Clone, Copy, PartialEq, Eq)]
pub enum ElementState {
    /// It is as it was.
    Unchanged,
    /// It may have changed, and its address selects something.
    Exists,
    /// It may have changed, and its address selects nothing.
    Missing,
}

// A truth value as XML Schema writes it.
fn boolean_text(value: bool) -> &'static str
    ensures exact { chars result.now ≡ boolean_text value }
{
    if value { "true" } else { "false" }
}

// The address of an element of a document, by its selector as written.
fn element_address(alloc: Global, doc: &DocId, raw: &Text) -> Result<Text, AllocError>
    ensures ok { IfOk result (λ text. text ≡ id_text doc.now ++ codes "/~~/" ++ raw.now) }
{
    let mut line = print_doc_id(alloc, doc)?;
    line.push_str("/~~/")?;
    line.push_str(raw.as_str())?;
    Ok(line)
}

// The `element` that says whether the element with an address exists.
fn new_existence_element(
    alloc: Global,
    prefix: &Prefix,
    sel: Text,
    exists: bool,
) -> Result<Element, AllocError>
    ensures ok { IfOk result (λ made. made ≡ existence_element prefix.now sel exists) }
{
    let mut made = new_diff_element(alloc, prefix, "element")?;
    push_plain_attr(alloc, &mut made, "sel", sel)?;
    push_plain_attr(
        alloc,
        &mut made,
        "exists",
        Text::from(alloc, boolean_text(exists))?,
    )?;
    Ok(made)
}

// Adds the `element` for an address.
fn push_existence_element(
    alloc: Global,
    notice: &mut Element,
    prefix: &Prefix,
    sel: Text,
    exists: bool,
) -> Result<(), AllocError>
    ensures ok { OnOk result
        (notice.new ≡ with_elements (existence_element prefix.now sel exists ∷ []) notice.old) }
{
    let made = new_existence_element(alloc, prefix, sel, exists)?;
    notice.push_elem(made)?;
    Ok(())
}

// Adds what a state says, if anything.
fn push_state(
    alloc: Global,
    notice: &mut Element,
    prefix: &Prefix,
    sel: Text,
    state: ElementState,
) -> Result<(), AllocError>
    ensures ok { OnOk result
        (notice.new ≡ with_elements (existence_elements prefix.now sel state) notice.old) }
{
    match state {
        ElementState::Unchanged => Ok(()),
        ElementState::Exists => push_existence_element(alloc, notice, prefix, sel, true),
        ElementState::Missing => push_existence_element(alloc, notice, prefix, sel, false),
    }
}

// The diff document of one element, as text: what became of the element, under its address, which
// has the selector as written.
pub(crate) fn notice_of_element(
    alloc: Global,
    root: &Root,
    doc: &DocId,
    raw: &Text,
    state: ElementState,
) -> Result<Bytes, AllocError>
    ensures ok { IfOk result
        (λ bytes. bytes ≡ encode_utf8_all
        (document_print (element_notice root.now (id_text doc.now) raw.now state))) }
{
    let prefix = Prefix::from(alloc, "d")?;
    let sel = element_address(alloc, doc, raw)?;
    let mut notice = empty_notice(alloc, &prefix, root.text())?;
    push_state(alloc, &mut notice, &prefix, sel, state)?;
    print_document(alloc, &notice)
}
