//! The steps that change the entries of the documents.
ghost use Rattle.std.specs.Prelude.{◌≡◌, ◌<◌, ◌++◌, ◌∷◌, [], map, filter, not, None, OnOk, Some};
ghost use Rattle.std.specs.Prelude.{if◌then◌else◌};
ghost use Rattle.std.specs.Map.{lookup};
ghost use Rattle.std.specs.Option.{option_copied};
ghost use Rattle.indexmap.specs.IndexMap.{spare};
ghost use Rattle.doc_names.specs.NameEquality.{same_id};
ghost use Rattle.edit_ops.specs.Changes.{FitsTree};
ghost use Rattle.store_core.specs.declared.entry.Entry.{Entry as Held};
ghost use Rattle.store_core.specs.TreeChanges.{IsUnsharedIfInPlace, IsStagedTreeFor};
ghost use Rattle.store_core.specs.inner.UnsharedTrees.{IsUnshared};
ghost use Rattle.store_core.specs.inner.StoreMemory.{IsUpdatedEntry, all_as_unshared};
ghost use Rattle.store_core.specs.inner.StoreMemory.{unshared_flags};

use crate::entry::{Entry, unshare_tree, update_entry};
use crate::staged_tree::StagedTree;
use doc_names::DocId;
use edit_ops::EditNote;
use indexmap::IndexMap;
use std::alloc::{AllocError, Global};

pub(crate) type Documents = IndexMap<DocId, Entry>;

/// A step on the entry of a document, with all its memory.
#[derive(Drop)]
pub enum EntryStep {
    /// Create the document under this name.
    Make(DocId, Entry),
    /// Make the edit of a change record, after which the document has `len` bytes, and retain the
    /// record.
    Edit {
        staged: StagedTree,
        kept: EditNote,
        len: usize,
    },
    /// Remove the document.
    End,
}

/// The entry of a document.
pub(crate) fn find_entry<'a>(documents: &'a Documents, doc: &DocId) -> Option<&'a Entry>
    ensures exact { option_copied result ≡ lookup (same_id doc.now) documents.now.entries }
{
    documents.get(doc)
}

/// Makes the tree of a document unshared, if it is stored. All documents are unchanged.
///
/// # Errors
/// `AllocError` when out of memory.
pub(crate) fn unshare(
    alloc: Global,
    documents: &mut Documents,
    doc: &DocId,
) -> Result<(), AllocError>
    ensures contents_unchanged { all_as_unshared documents.new.entries
        ≡ all_as_unshared documents.old.entries }
    ensures tree_unshared { OnOk result
        (IsUnshared (unshared_flags documents.new.entries) doc.now) }
{
    match documents.get_mut(doc) {
        Some(entry) => unshare_tree(alloc, entry),
        None => Ok(()),
    }
}

// Appends a new document.
fn append_document(documents: &mut Documents, doc: DocId, entry: Entry)
    requires absent { lookup (same_id doc) documents.old.entries ≡ None }
    requires room_left { 0 < spare documents.old }
    ensures appends_entry { documents.new.entries ≡ documents.old.entries ++ (doc, entry) ∷ [] }
{
    documents.insert(doc, entry).unwrap();
}

// Makes the edit of a change record in a stored document, retains the record, and returns the
// number of the document's creation.
fn edit_document(
    documents: &mut Documents,
    doc: &DocId,
    number: u64,
    staged: StagedTree,
    note: EditNote,
    len: usize,
) -> u64
    requires { (v : Held) × (lookup (same_id doc.now) documents.old.entries ≡ Some v)
        × FitsTree v.tree.root note.change × IsStagedTreeFor v.tree.root note.change staged
        × IsUnsharedIfInPlace staged v.tree.own }
    ensures renews_entry { (v : Held) × (w : Held)
        × (lookup (same_id doc.now) documents.old.entries ≡ Some v)
        × IsUpdatedEntry v number note len w
        × (documents.new.entries
        ≡ map (λ e. if same_id doc.now e.0 then (e.0, w) else e) documents.old.entries)
        × (result ≡ w.created) }
{
    match documents.get_mut(doc) {
        Some(entry) => {
            update_entry(entry, number, staged, note, len);
            entry.created
        }
        None => unreachable!(),
    }
}

// Removes a document; the others keep their order.
fn remove_document(documents: &mut Documents, doc: &DocId)
    ensures tree_changed { documents.new.entries
        ≡ filter (λ e. not (same_id doc.now e.0)) documents.old.entries }
{
    let _count = documents.len();
    documents.shift_remove(doc);
}

impl EntryStep {
    ghost use Rattle.store_core.specs.inner.ChangePlans.{CanTakeStep, TakesStep};

    /// Makes the step under a number, and returns the number of the document's creation.
    pub(crate) fn apply_to(self, documents: &mut Documents, doc: &DocId, number: u64) -> u64
        requires fits { CanTakeStep documents.old.entries doc.now self }
        requires room_left { 0 < spare documents.old }
        ensures takes_step { TakesStep
            (record { entries = documents.old.entries; doc = doc.now; number = number })
            self result documents.new.entries }
    {
        match self {
            EntryStep::Make(key, entry) => {
                let created = entry.created;
                append_document(documents, key, entry);
                created
            }
            EntryStep::Edit { staged, kept, len } => {
                edit_document(documents, doc, number, staged, kept, len)
            }
            EntryStep::End => {
                remove_document(documents, doc);
                number
            }
        }
    }
}
