//! Diff documents about whole documents (RFC 5874, section 3).
ghost use Rattle.std.specs.Prelude.{◌≡◌, [], ◌∷◌, ◌++◌, IfOk, OnOk, chars, codes, decimal, false};
ghost use Rattle.std.specs.Prelude.{encode_utf8_all};
ghost use Rattle.doc_names.specs.DocIds.{id_text};
ghost use Rattle.xml_tree.specs.Edits.{with_elem};
ghost use Rattle.xml_names.specs.ExpandedNames.{name_from_parts};
ghost use Rattle.xml_tree.specs.Print.{document_print};
ghost use Rattle.xml_tree.specs.Tree.{last, tree_of};
ghost use Rattle.edit_ops.specs.Notes.{tag_after};
ghost use Rattle.edit_ops.specs.DiffOperations.{operation, plain_attr, sel_attr};
ghost use Rattle.edit_ops.specs.RecordParts.{has_no_notes};
ghost use Rattle.patch_rules.specs.Notices.{aggregate_documents, candidate_prefix, diff, document};
ghost use Rattle.patch_rules.specs.Notices.{gone_notice};
ghost use Rattle.patch_rules.specs.Notices.{patching_documents, operations, prefix_for};
ghost use Rattle.patch_rules.specs.Notices.{removed_document};
ghost use Rattle.patch_rules.specs.Notices.{tags_documents};
ghost use Rattle.patch_write.specs.Modes.{notice_of};
ghost use Rattle.patch_write.specs.inner.Modes.{mode_documents, reported_notes};
ghost use Rattle.patch_rules.specs.inner.AppendedElements.{with_elements};

use crate::operations::operation;
use crate::prefixes::prefix_for;
use doc_names::{DocId, print_doc_id};
use edit_ops::{EditNote, Notes};
use patch_rules::{empty_notice, new_diff_element, push_plain_attr};
use std::alloc::{AllocError, Global};
use tree_print::print_document;
use xcap_io::Bytes;
use xcap_uri::{Mode, Root};
use xml_names::{Prefix, Text};
use xml_tree::Element;

// Names in a diff document: the prefix of its namespace, and the document's printed name.
#[derive(Drop)]
struct Names {
    prefix: Prefix,
    sel: Text,
}

// ---- `document` elements

// The tag after the last change record, or `from` without any.
fn last_tag(from: u64, notes: &[EditNote]) -> u64
    ensures exact { result ≡ tag_after from notes.now }
{
    match notes.last() {
        Some(note) => note.next(),
        None => from,
    }
}

// Adds the operations of change records to a document.
fn push_operations(
    alloc: Global,
    document: &mut Element,
    prefix: &Prefix,
    notes: &[EditNote],
) -> Result<(), AllocError>
    ensures ok { OnOk result
        (document.new ≡ with_elements (operations prefix.now notes.now) document.old) }
{
    for note in notes {
        document.push_elem(operation(alloc, prefix, note)?)?;
    }
    Ok(())
}

// The `document` element without tags.
#[tactic(auto, using(crate::proofs::Words::words))]
fn document_element(alloc: Global, names: &Names) -> Result<Element, AllocError>
    ensures ok { IfOk result
        (λ made. made ≡ tree_of (name_from_parts names.now.prefix (codes "document")) []
        (sel_attr names.now.sel ∷ []) (last [])) }
{
    let sel = names.sel.copy(alloc)?;
    let mut made = new_diff_element(alloc, &names.prefix, "document")?;
    push_plain_attr(alloc, &mut made, "sel", sel)?;
    Ok(made)
}

// The number of an etag, without quotes.
pub(crate) fn tag_text(alloc: Global, tag: u64) -> Result<Text, AllocError>
    ensures ok { IfOk result (λ text. text ≡ decimal tag) }
{
    let number = format!(in alloc; "{}", tag)?;
    Ok(Text::own(number))
}

// Adds an etag as the attribute of this name.
fn push_etag(alloc: Global, document: &mut Element, word: &str, tag: u64) -> Result<(), AllocError>
    ensures appended { OnOk result
        (document.new ≡ record document.old {
          attrs = document.old.attrs ++ plain_attr (chars word.now) (decimal tag) ∷ [];
        }) }
{
    push_plain_attr(alloc, document, word, tag_text(alloc, tag)?)
}

// Adds the etags after and before the changes.
fn push_etags(alloc: Global, document: &mut Element, from: u64, to: u64) -> Result<(), AllocError>
    ensures appended { OnOk result
        (document.new ≡ record document.old {
          attrs =
              (document.old.attrs ++ plain_attr (codes "new-etag") (decimal to) ∷ [])
              ++ plain_attr (codes "previous-etag") (decimal from) ∷ [];
        }) }
{
    push_etag(alloc, document, "new-etag", to)?;
    push_etag(alloc, document, "previous-etag", from)
}

// The `document` element with these etags and no operation.
fn unpatched_document(
    alloc: Global,
    names: &Names,
    from: u64,
    to: u64,
) -> Result<Element, AllocError>
    ensures ok { IfOk result (λ made. made ≡ document names.now.prefix names.now.sel from to []) }
{
    let mut made = document_element(alloc, names)?;
    push_etags(alloc, &mut made, from, to)?;
    Ok(made)
}

// The `document` element of a document that was removed.
fn removal_element(alloc: Global, names: &Names, from: u64) -> Result<Element, AllocError>
    ensures ok { IfOk result (λ made. made ≡ removed_document names.now.prefix names.now.sel from) }
{
    let mut gone = document_element(alloc, names)?;
    push_etag(alloc, &mut gone, "previous-etag", from)?;
    Ok(gone)
}

// The `document` element with one operation.
fn document_with_operation(
    alloc: Global,
    names: &Names,
    from: u64,
    to: u64,
    element: Element,
) -> Result<Element, AllocError>
    ensures ok { IfOk result
        (λ made. made ≡ document names.now.prefix names.now.sel from to (element ∷ [])) }
{
    let mut made = unpatched_document(alloc, names, from, to)?;
    made.push_elem(element)?;
    Ok(made)
}

// The `document` element of one change record.
fn document_of_record(alloc: Global, names: &Names, note: &EditNote) -> Result<Element, AllocError>
    ensures ok { IfOk result
        (λ made. made ≡ document names.now.prefix names.now.sel note.now.previous note.now.next
        (operation names.now.prefix note.now ∷ [])) }
{
    let element = operation(alloc, &names.prefix, note)?;
    document_with_operation(alloc, names, note.previous(), note.next(), element)
}

// The `document` element with the operations of all change records.
fn document_of_records(
    alloc: Global,
    names: &Names,
    from: u64,
    to: u64,
    notes: &Notes<'_>,
) -> Result<Element, AllocError>
    ensures ok { IfOk result
        (λ made. made ≡ document names.now.prefix names.now.sel from to
        (operations names.now.prefix notes.now)) }
{
    let (older, newer) = notes.pieces();
    let mut made = unpatched_document(alloc, names, from, to)?;
    push_operations(alloc, &mut made, &names.prefix, older)?;
    push_operations(alloc, &mut made, &names.prefix, newer)?;
    Ok(made)
}

// Adds a `document` element for each change record.
fn push_record_documents(
    alloc: Global,
    notice: &mut Element,
    names: &Names,
    notes: &[EditNote],
) -> Result<(), AllocError>
    ensures ok { OnOk result
        (notice.new
        ≡ with_elements (patching_documents names.now.prefix names.now.sel notes.now) notice.old) }
{
    for note in notes {
        notice.push_elem(document_of_record(alloc, names, note)?)?;
    }
    Ok(())
}

// ---- the whole diff document

// The tag after all change records.
fn last_tag_of_notes(from: u64, notes: &Notes<'_>) -> u64
    ensures exact { result ≡ tag_after from notes.now }
{
    let (older, newer) = notes.pieces();
    last_tag(last_tag(from, older), newer)
}

// Adds the `document` element with etags alone.
fn push_tags_document(
    alloc: Global,
    notice: &mut Element,
    names: &Names,
    from: u64,
    notes: &Notes<'_>,
) -> Result<(), AllocError>
    requires { has_no_notes notes.now ≡ false }
    ensures ok { OnOk result
        (notice.new ≡ with_elements
        (tags_documents names.now.prefix names.now.sel from notes.now) notice.old) }
{
    let to = last_tag_of_notes(from, notes);
    let made = unpatched_document(alloc, names, from, to)?;
    notice.push_elem(made)?;
    Ok(())
}

// Adds a `document` element for each change record.
fn push_patching_documents(
    alloc: Global,
    notice: &mut Element,
    names: &Names,
    notes: &Notes<'_>,
) -> Result<(), AllocError>
    ensures ok { OnOk result
        (notice.new ≡ with_elements
        (patching_documents names.now.prefix names.now.sel notes.now) notice.old) }
{
    let (older, newer) = notes.pieces();
    push_record_documents(alloc, notice, names, older)?;
    push_record_documents(alloc, notice, names, newer)?;
    Ok(())
}

// Adds the `document` element with all operations.
fn push_aggregate_document(
    alloc: Global,
    notice: &mut Element,
    names: &Names,
    from: u64,
    notes: &Notes<'_>,
) -> Result<(), AllocError>
    requires { has_no_notes notes.now ≡ false }
    ensures ok { OnOk result
        (notice.new ≡ with_elements
        (aggregate_documents names.now.prefix names.now.sel from notes.now) notice.old) }
{
    let to = last_tag_of_notes(from, notes);
    let made = document_of_records(alloc, names, from, to, notes)?;
    notice.push_elem(made)?;
    Ok(())
}

// Adds the `document` elements of change records.
fn push_documents(
    alloc: Global,
    notice: &mut Element,
    names: &Names,
    mode: Mode,
    from: u64,
    notes: &Notes<'_>,
) -> Result<(), AllocError>
    ensures ok { OnOk result
        (notice.new ≡ with_elements
        (mode_documents mode names.now.prefix names.now.sel from notes.now) notice.old) }
{
    if notes.is_empty() {
        return Ok(());
    }
    match mode {
        Mode::NoPatching => push_tags_document(alloc, notice, names, from, notes),
        Mode::XcapPatching => push_patching_documents(alloc, notice, names, notes),
        Mode::Aggregate => push_aggregate_document(alloc, notice, names, from, notes),
    }
}

// The prefix of the diff document of these change records in this mode.
fn prefix_in_mode(alloc: Global, mode: Mode, notes: &Notes<'_>) -> Result<Prefix, AllocError>
    ensures mode_prefix { IfOk result
        (λ prefix. prefix ≡ prefix_for (reported_notes mode notes.now)) }
{
    match mode {
        Mode::NoPatching => prefix_for(alloc, &Notes::none()),
        Mode::XcapPatching => prefix_for(alloc, notes),
        Mode::Aggregate => prefix_for(alloc, notes),
    }
}

// The names in the diff document of these change records in this mode.
fn names_for(alloc: Global, mode: Mode, doc: &DocId, notes: &Notes<'_>) -> Result<Names, AllocError>
    ensures records_prefix { IfOk result
        (λ names. names.prefix ≡ prefix_for (reported_notes mode notes.now)) }
    ensures prints_name { IfOk result (λ names. names.sel ≡ id_text doc.now) }
{
    let prefix = prefix_in_mode(alloc, mode, notes)?;
    let sel = print_doc_id(alloc, doc)?;
    Ok(Names { prefix, sel })
}

// The tree of the diff document of these change records.
fn notice_tree(
    alloc: Global,
    names: &Names,
    mode: Mode,
    root: &Root,
    from: u64,
    notes: &Notes<'_>,
) -> Result<Element, AllocError>
    ensures ok { IfOk result
        (λ made. made ≡ with_elements
        (mode_documents mode names.now.prefix names.now.sel from notes.now)
        (diff names.now.prefix root.now [])) }
{
    let mut notice = empty_notice(alloc, &names.prefix, root.text())?;
    push_documents(alloc, &mut notice, names, mode, from, notes)?;
    Ok(notice)
}

/// The diff document of a document's change records since the tag `from`, as text. Without change
/// records it has no `document`. `no-patching` sends the etags alone, `xcap-patching` each change
/// by itself, and `aggregate` all changes at once, from the first etag to the last (RFC 5875,
/// section 4.3).
///
/// # Errors
/// `AllocError` when out of memory.
pub fn notice(
    alloc: Global,
    mode: Mode,
    root: &Root,
    doc: &DocId,
    from: u64,
    notes: &Notes<'_>,
) -> Result<Bytes, AllocError>
    ensures ok { IfOk result
        (λ bytes. bytes ≡ encode_utf8_all
        (document_print (notice_of mode root.now (id_text doc.now) from notes.now))) }
{
    let names = names_for(alloc, mode, doc, notes)?;
    let notice = notice_tree(alloc, &names, mode, root, from, notes)?;
    print_document(alloc, &notice)
}

// The names in a diff document without operations.
#[tactic(auto, using(crate::proofs::Words::words))]
fn plain_names(alloc: Global, doc: &DocId) -> Result<Names, AllocError>
    ensures first_prefix { IfOk result (λ names. names.prefix ≡ candidate_prefix 0) }
    ensures prints_name { IfOk result (λ names. names.sel ≡ id_text doc.now) }
{
    let prefix = Prefix::from(alloc, "d")?;
    let sel = print_doc_id(alloc, doc)?;
    Ok(Names { prefix, sel })
}

// Adds the `document` element of a document that was removed.
fn push_removed_document(
    alloc: Global,
    notice: &mut Element,
    names: &Names,
    from: u64,
) -> Result<(), AllocError>
    ensures ok { OnOk result
        (notice.new ≡ record notice.old {
          content =
              with_elem (removed_document names.now.prefix names.now.sel from) notice.old.content;
        }) }
{
    let gone = removal_element(alloc, names, from)?;
    notice.push_elem(gone)
}

// The tree of the diff document of a document that was removed.
fn gone_tree(alloc: Global, names: &Names, root: &Root, from: u64) -> Result<Element, AllocError>
    ensures ok { IfOk result
        (λ made. made ≡ diff names.now.prefix root.now
        (removed_document names.now.prefix names.now.sel from ∷ [])) }
{
    let mut notice = empty_notice(alloc, &names.prefix, root.text())?;
    push_removed_document(alloc, &mut notice, names, from)?;
    Ok(notice)
}

/// The diff document, as text, which says that a document is gone, for a client that has the
/// version with the tag `from`.
///
/// # Errors
/// `AllocError` when out of memory.
pub fn gone_notice(alloc: Global, root: &Root, doc: &DocId, from: u64) -> Result<Bytes, AllocError>
    ensures ok { IfOk result
        (λ bytes. bytes ≡ encode_utf8_all
        (document_print (gone_notice root.now (id_text doc.now) from))) }
{
    let names = plain_names(alloc, doc)?;
    let notice = gone_tree(alloc, &names, root, from)?;
    print_document(alloc, &notice)
}
