//! A watcher that keeps every document as it is now.
ghost use Rattle.std.specs.Prelude.{◌≡◌, [], None, Some, IfOk, OnErr, OnOk, if◌then◌else◌};
ghost use Rattle.std.specs.Option.{option_map};
ghost use Rattle.watchers.specs.WatcherResults.{IsNotFailure};
ghost use Rattle.watchers.specs.Mirrors.{HoldsAfterChange, HoldsEditedTree, HoldsIfWithinLevels};
ghost use Rattle.watchers.specs.Mirrors.{AllAreUnchanged, MirrorsChange};
ghost use Rattle.watchers.specs.Mirrors.{OthersAreUnchanged, find_mirrored, mirrored_document};

use crate::change_fits::fits_tree;
use crate::mirror_entry::MirrorEntry;
use crate::watcher::{Told, Watcher};
use doc_names::DocId;
use edit_ops::{Change, EditNote, apply_change};
use indexmap::IndexMap;
use std::alloc::{AllocError, Global};
use std::marker::Model;
use xml_names::MAX_LEVELS;
use xml_tree::{Element, copy_tree, depth};

/// Every document of which it was notified, as it is now.
#[derive(Drop)]
pub struct Mirror {
    alloc: Global,
    held: IndexMap<DocId, MirrorEntry>,
}

impl Model for Mirror {
    ghost use Rattle.std.specs.Prelude.{List};
    ghost use Rattle.std.specs.Coded.{codes};
    ghost use Rattle.doc_names.specs.declared.doc_id.DocId.{DocId as TheDocId};
    ghost use Rattle.watchers.specs.contracts.mirror_entry.MirrorEntry as h;
    ghost use Rattle.watchers.specs.declared.mirror_entry.MirrorEntry.{MirrorEntry as TheHolding};

    ghost Value = { List (TheDocId × TheHolding) };

    ghost coded = { Prim.hlevel (codes, h.the_row.coded) };

    ghost view = { λ m. m.held.entries };
}

// Makes a change of a kept tree, and returns whether it is still kept.
fn update_mirrored(
    alloc: Global,
    held: &mut MirrorEntry,
    change: &Change,
    number: u64,
) -> Result<bool, AllocError>
    ensures holds_edited { IfOk result
        (λ stays. HoldsEditedTree change.now number (Some (mirrored_document held.old))
        (if stays then Some (mirrored_document held.new) else None)) }
    ensures err_unchanged { OnErr result (held.new ≡ held.old) }
{
    if !fits_tree(&held.tree, change) {
        return Ok(false);
    }
    apply_change(alloc, &mut held.tree, change)?;
    held.number = number;
    Ok(depth(&held.tree) <= MAX_LEVELS)
}

impl Mirror {
    /// An empty mirror. Does not allocate; documents are allocated by `alloc` later.
    pub fn new(alloc: Global) -> Mirror
        ensures holds_no_documents { result ≡ [] }
    {
        Mirror {
            alloc,
            held: IndexMap::new(alloc),
        }
    }

    /// The kept tree of a document, and the number of the change that made it. Does not allocate.
    pub fn get(&self, doc: &DocId) -> Option<(&Element, u64)>
        ensures exact { option_map (λ held. (held.0.now, held.1)) result
            ≡ find_mirrored self.now doc.now }
    {
        let held = self.held.get(doc)?;
        Some((&held.tree, held.number))
    }

    fn remove_document(&mut self, doc: &DocId)
        ensures document_is_forgotten { find_mirrored self.new doc.now ≡ None }
        ensures other_documents_stay { OthersAreUnchanged self.old doc.now self.new }
    {
        self.held.swap_remove(doc);
    }

    // Keeps a new document; not if its tree is too deep.
    fn insert_document(
        &mut self,
        doc: &DocId,
        root: &Element,
        number: u64,
    ) -> Result<(), AllocError>
        ensures holds_new { OnOk result
            (HoldsIfWithinLevels root.now number (find_mirrored self.new doc.now)) }
        ensures other_documents_stay { OthersAreUnchanged self.old doc.now self.new }
        ensures err_unchanged { OnErr result (AllAreUnchanged self.old self.new) }
    {
        if depth(root) > MAX_LEVELS {
            self.remove_document(doc);
            return Ok(());
        }
        let tree = copy_tree(self.alloc, root)?;
        let doc = doc.copy(self.alloc)?;
        self.held.insert(doc, MirrorEntry { tree, number })?;
        Ok(())
    }

    // Makes a change of a kept document; the document is removed where the change doesn't fit or
    // makes the tree too deep.
    fn edit_document(&mut self, doc: &DocId, change: &Change, number: u64) -> Result<(), AllocError>
        ensures holds_edited { OnOk result
            (HoldsEditedTree change.now number (find_mirrored self.old doc.now)
            (find_mirrored self.new doc.now)) }
        ensures other_documents_stay { OthersAreUnchanged self.old doc.now self.new }
        ensures err_unchanged { OnErr result (AllAreUnchanged self.old self.new) }
    {
        let alloc = self.alloc;
        let Some(held) = self.held.get_mut(doc) else {
            return Ok(());
        };
        let stays = update_mirrored(alloc, held, change, number)?;
        if stays {
            return Ok(());
        }
        self.remove_document(doc);
        Ok(())
    }

    // Keeps what a change leaves of a document.
    fn apply_to_document(
        &mut self,
        doc: &DocId,
        change: &Change,
        number: u64,
    ) -> Result<(), AllocError>
        ensures holds_after { OnOk result
            (HoldsAfterChange change.now number (find_mirrored self.old doc.now)
            (find_mirrored self.new doc.now)) }
        ensures other_documents_stay { OthersAreUnchanged self.old doc.now self.new }
        ensures err_unchanged { OnErr result (AllAreUnchanged self.old self.new) }
    {
        match change {
            Change::CreateDocument { root } => self.insert_document(doc, root, number),
            change => self.edit_document(doc, change, number),
        }
    }

    fn record_change(&mut self, doc: &DocId, note: &EditNote) -> Result<(), AllocError>
        ensures holds_after { OnOk result
            (HoldsAfterChange note.now.change note.now.next (find_mirrored self.old doc.now)
            (find_mirrored self.new doc.now)) }
        ensures other_documents_stay { OthersAreUnchanged self.old doc.now self.new }
        ensures err_unchanged { OnErr result (AllAreUnchanged self.old self.new) }
    {
        self.apply_to_document(doc, note.change(), note.next())
    }
}

impl Watcher for Mirror {
    ghost watcher_state = { λ _. record {
      notified_changes = None;
      faults = 0;
      never_refuses = ⊥;
      answers = λ _ told. IsNotFailure told;
      written = None;
    } };

    ghost holds = { find_mirrored };

    fn told(&mut self, doc: &DocId, note: &EditNote) -> Told
        ensures never_fails { IsNotFailure result }
        ensures mirrors_edit { MirrorsChange self.old
            (record { doc = doc.now; note = note.now }) result self.new }
    {
        match self.record_change(doc, note) {
            Ok(()) => Told::Kept,
            Err(AllocError) => Told::NoMemory,
        }
    }

    fn kept(&self, doc: &DocId) -> Option<(&Element, u64)> {
        self.get(doc)
    }
}
