//! The entry of a document in the store, with the retained records of its changes (RFC 5874,
//! section 3).
ghost use Rattle.std.specs.Prelude.{◌≡◌, IfOk, OnOk, true};
ghost use Rattle.store_core.specs.StoreViews.{new_entry};
ghost use Rattle.edit_ops.specs.Changes.{FitsTree};
ghost use Rattle.usage_docs.specs.Services.{document_len};
ghost use Rattle.store_core.specs.TreeChanges.{IsUnsharedIfInPlace, IsStagedTreeFor};
ghost use Rattle.store_core.specs.inner.StoreMemory.{IsUpdatedEntry, as_unshared};

use crate::cached_tree::CachedTree;
use crate::printed_tree::PrintedTree;
use crate::retained_records::RetainedRecords;
use crate::staged_tree::StagedTree;
use edit_ops::EditNote;
use std::alloc::{AllocError, Global};

/// A document: the number of its creation, its etag, its tree and the length of its print, and the
/// retained change records.
#[derive(Drop)]
pub struct Entry {
    pub(crate) created: u64,
    pub(crate) tag: u64,
    pub(crate) tree: CachedTree,
    pub(crate) len: usize,
    pub(crate) notes: RetainedRecords,
}

impl Entry {
    /// A new document of `len` bytes, created with this number, with the memory for its change
    /// records. Its first record shares the tree.
    pub(crate) fn new(
        alloc: Global,
        number: u64,
        tree: PrintedTree,
        len: usize,
    ) -> Result<Entry, AllocError>
        requires { len ≡ document_len tree }
        ensures ok { IfOk result (λ made. made ≡ new_entry number tree) }
    {
        let notes = RetainedRecords::new(alloc)?;
        Ok(Entry {
            created: number,
            tag: number,
            tree: CachedTree::from_record(tree),
            len,
            notes,
        })
    }
}

/// Makes the edit of a change record in a document, which then has `len` bytes and the edit's
/// number as its etag, and retains the record.
pub(crate) fn update_entry(
    entry: &mut Entry,
    number: u64,
    staged: StagedTree,
    note: EditNote,
    len: usize,
)
    requires fits { FitsTree entry.old.tree.root note.change }
    requires change_staged { IsStagedTreeFor entry.old.tree.root note.change staged }
    requires tree_owned { IsUnsharedIfInPlace staged entry.old.tree.own }
    ensures renewed_entry { IsUpdatedEntry entry.old number note len entry.new }
{
    entry.tree.apply_staged_change(note.change(), staged);
    entry.len = len;
    entry.tag = number;
    entry.notes.keep(note);
}

/// Makes the tree of a document unshared; the tree is unchanged.
pub(crate) fn unshare_tree(alloc: Global, entry: &mut Entry) -> Result<(), AllocError>
    ensures contents_unchanged { as_unshared entry.new ≡ as_unshared entry.old }
    ensures tree_unshared { OnOk result (entry.new.tree.own ≡ true) }
{
    entry.tree.unshare(alloc)
}
