//! Builds prepared changes: the record of each change, and the step that the store makes.
ghost use Rattle.std.specs.Prelude.{◌≡◌, [], false, IfOk, min};
ghost use Rattle.edit_ops.specs.Changes.{FitsTree};
ghost use Rattle.edit_ops.specs.PrintedLengths.{element_len};
ghost use Rattle.edit_ops.specs.declared.change.Change.TheVariants as changes;
ghost use Rattle.edit_ops.specs.InsertedElements.{InsertsElement, inserted_element};
ghost use Rattle.edit_ops.specs.Notes.{note_of};
ghost use Rattle.store_core.specs.TreeChanges.{IsStagedTreeFor};
ghost use Rattle.store_core.specs.StoreViews.{new_entry};
ghost use Rattle.store_core.specs.declared.step.EntryStep.TheVariants as steps;
ghost use Rattle.store_core.specs.inner.ChangePlans.{IsPreparedEdit, IsEditStep};
ghost use Rattle.store_core.specs.inner.Prints.{IsInsertedPrint, IsPrintOf};
ghost use Rattle.usage_docs.specs.Services.{document_len};

use crate::entry::Entry;
use crate::prepared_change::Prepared;
use crate::printed_tree::PrintedTree;
use crate::put_lengths::Put;
use crate::root_changes::edits_within_root;
use crate::staged_tree::StagedTree;
use crate::step::EntryStep;
use doc_names::DocId;
use edit_ops::{Change, EditNote, RecordedTree, stage};
use std::alloc::{AllocError, Global};
use xcap_io::Bytes;
use xml_names::{List, Text};
use xml_tree::Element;

/// What is known of a document after a change, before there is a change record.
#[derive(Drop)]
pub(crate) struct Outline {
    pub(crate) number: u64,
    pub(crate) put: Put,
    // The number of bytes of the document, and of all documents together.
    pub(crate) len: usize,
    pub(crate) total: u64,
    // The removed and the added service addresses.
    pub(crate) leaves: List<Text>,
    pub(crate) enters: List<Text>,
}

// The step that creates a document under this name. It shares its tree with the change record.
fn creation_step(
    alloc: Global,
    doc: &DocId,
    number: u64,
    note: &EditNote,
    print: Option<Bytes>,
    len: usize,
) -> Result<EntryStep, AllocError>
    requires brings_part { InsertsElement note.now.change }
    requires print_of_part { IsPrintOf (inserted_element note.now.change) print }
    requires length_exact { len ≡ document_len (inserted_element note.now.change) }
    ensures makes_document { IfOk result
        (λ step. step ≡ steps.Make doc.now (new_entry number (inserted_element note.now.change))) }
{
    let noted = RecordedTree::of(note)?;
    let tree = PrintedTree::of(noted, print);
    let entry = Entry::new(alloc, number, tree, len)?;
    let key = doc.copy(alloc)?;
    Ok(EntryStep::Make(key, entry))
}

// The change record of a creation, and its step.
fn record_creation(
    alloc: Global,
    doc: &DocId,
    number: u64,
    root: Element,
    print: Option<Bytes>,
    len: usize,
) -> Result<(EditNote, EntryStep), AllocError>
    requires print_of_part { IsPrintOf root print }
    requires length_exact { len ≡ document_len root }
    ensures creation_record { IfOk result
        (λ made. made.0 ≡ record {
          previous = 0;
          next = number;
          bindings = [];
          change = changes.CreateDocument root;
          fresh = false;
        }) }
    ensures makes_document { IfOk result
        (λ made. made.1 ≡ steps.Make doc.now (new_entry number root)) }
{
    let note = EditNote::of_document(alloc, 0, number, Change::CreateDocument { root })?;
    let step = creation_step(alloc, doc, number, &note, print, len)?;
    Ok((note, step))
}

/// The creation of a document, by its outline.
///
/// # Errors
/// `AllocError` when out of memory.
pub(crate) fn prepare_creation(
    alloc: Global,
    doc: DocId,
    root: Element,
    outline: Outline,
) -> Result<Prepared, AllocError>
    requires print_of_part { IsPrintOf root outline.put.print }
    requires length_exact { outline.len ≡ document_len root }
    ensures ok { IfOk result (λ p. p ≡ record {
      doc = doc;
      note = record {
        previous = 0;
        next = outline.number;
        bindings = [];
        change = changes.CreateDocument root;
        fresh = false;
      };
      step = steps.Make doc (new_entry outline.number root);
      leaves = outline.leaves;
      enters = outline.enters;
      total = outline.total;
    }) }
{
    let Outline {
        number,
        put,
        len,
        total,
        leaves,
        enters,
    } = outline;
    let (note, step) = record_creation(alloc, &doc, number, root, put.print, len)?;
    Ok(Prepared {
        doc,
        note,
        step,
        leaves,
        enters,
        total,
    })
}

/// The removal of a document.
///
/// # Errors
/// `AllocError` when out of memory.
pub(crate) fn prepare_removal(
    alloc: Global,
    doc: DocId,
    tag: u64,
    number: u64,
    leaves: List<Text>,
    total: u64,
) -> Result<Prepared, AllocError>
    ensures ok { IfOk result (λ p. p ≡ record {
      doc = doc;
      note = record {
        previous = tag;
        next = number;
        bindings = [];
        change = changes.RemoveDocument;
        fresh = false;
      };
      step = steps.End;
      leaves = leaves;
      enters = [];
      total = total;
    }) }
{
    let note = EditNote::of_document(alloc, tag, number, Change::RemoveDocument)?;
    Ok(Prepared {
        doc,
        note,
        step: EntryStep::End,
        leaves,
        enters: List::empty(alloc),
        total,
    })
}

// What the change of a record inserts into the tree. Where it replaces the root, the tree is
// shared with the record, and comes with its print.
fn stage_tree(
    alloc: Global,
    root: &Element,
    note: &EditNote,
    print: Option<Bytes>,
) -> Result<StagedTree, AllocError>
    requires fits { FitsTree root.now note.now.change }
    requires print_of_part { IsInsertedPrint note.now.change print }
    ensures stages_change { IfOk result (λ made. IsStagedTreeFor root.now note.now.change made) }
{
    let change = note.change();
    if edits_within_root(change) {
        let staged = stage(alloc, root, change)?;
        return Ok(StagedTree::InPlace(staged));
    }
    let noted = RecordedTree::of(note)?;
    let tree = PrintedTree::of(noted, print);
    Ok(StagedTree::Whole(tree))
}

// The step that makes the edit of a change record in this tree.
fn edit_step(
    alloc: Global,
    root: &Element,
    note: &EditNote,
    print: Option<Bytes>,
    len: usize,
) -> Result<EntryStep, AllocError>
    requires fits { FitsTree root.now note.now.change }
    requires print_of_part { IsInsertedPrint note.now.change print }
    ensures stages_change { IfOk result (λ step. IsEditStep root.now note.now len step) }
{
    let staged = stage_tree(alloc, root, note, print)?;
    let kept = note.copy()?;
    Ok(EntryStep::Edit { staged, kept, len })
}

// The change record of an edit of a document, and its step.
fn record_edit(
    alloc: Global,
    entry: &Entry,
    number: u64,
    change: Change,
    put: Put,
    len: usize,
) -> Result<(EditNote, EntryStep), AllocError>
    requires fits { FitsTree entry.now.tree.root change }
    requires length_of_part { put.len ≡ min (element_len change) usize.MAX }
    requires print_of_part { IsInsertedPrint change put.print }
    ensures change_record { IfOk result
        (λ made. made.0 ≡ note_of entry.now.tag number entry.now.tree.root change) }
    ensures staged_edit { IfOk result (λ made. IsEditStep entry.now.tree.root made.0 len made.1) }
{
    let tree = entry.tree.root();
    let note = EditNote::of(alloc, entry.tag, number, tree, change, put.len)?;
    let step = edit_step(alloc, tree, &note, put.print, len)?;
    Ok((note, step))
}

/// The edit of a document, by its outline.
///
/// # Errors
/// `AllocError` when out of memory.
pub(crate) fn prepare_edit(
    alloc: Global,
    doc: DocId,
    entry: &Entry,
    change: Change,
    outline: Outline,
) -> Result<Prepared, AllocError>
    requires fits { FitsTree entry.now.tree.root change }
    requires length_of_part { outline.put.len ≡ min (element_len change) usize.MAX }
    requires print_of_part { IsInsertedPrint change outline.put.print }
    ensures prepared_edit { IfOk result (λ p. IsPreparedEdit doc entry.now change outline p) }
{
    let Outline {
        number,
        put,
        len,
        total,
        leaves,
        enters,
    } = outline;
    let (note, step) = record_edit(alloc, entry, number, change, put, len)?;
    Ok(Prepared {
        doc,
        note,
        step,
        leaves,
        enters,
        total,
    })
}
