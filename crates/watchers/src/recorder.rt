//! A watcher that keeps a copy of each change.
ghost use Rattle.std.specs.Prelude.{◌≡◌, [], ◌∷◌, ◌++◌, ◌≢◌, OnOk, OnErr, Some, None};
ghost use Rattle.watchers.specs.WatcherResults.{IsNotFailure};

use crate::watcher::{Told, Watcher};
use doc_names::DocId;
use edit_ops::{Edit, EditNote};
use std::alloc::{AllocError, Global};
use std::marker::Model;
use xml_tree::Element;

/// The changes of which it was notified, in order.
#[derive(Drop)]
pub struct Recorder {
    alloc: Global,
    edits: Vec<Edit>,
}

impl Model for Recorder {
    ghost use Rattle.std.specs.Prelude.{List};
    ghost use Rattle.std.specs.Coded.{codes};
    ghost use Rattle.edit_ops.specs.contracts.edit.Edit as e;
    ghost use Rattle.edit_ops.specs.declared.edit.Edit.{Edit as TheEdit};

    ghost Value = { List TheEdit };

    ghost coded = { Prim.hlevel (codes, e.the_row.coded) };

    ghost view = { λ r. r.edits.items };
}

impl Recorder {
    /// An empty recorder. Does not allocate; changes are allocated by `alloc` later.
    pub fn new(alloc: Global) -> Recorder
        ensures exact { result ≡ [] }
    {
        Recorder {
            alloc,
            edits: Vec::new(alloc),
        }
    }

    /// Borrows the changes. Does not allocate.
    pub fn edits(&self) -> &[Edit]
        ensures exact { result.now ≡ self.now }
    {
        &self.edits
    }

    fn keep(&mut self, doc: &DocId, note: &EditNote) -> Result<(), AllocError>
        ensures appended { OnOk result
            (self.new ≡ self.old ++ record { doc = doc.now; note = note.now } ∷ []) }
        ensures err_unchanged { OnErr result (self.new ≡ self.old) }
    {
        let doc = doc.copy(self.alloc)?;
        let note = note.copy()?;
        self.edits.push(Edit { doc, note })?;
        Ok(())
    }
}

impl Watcher for Recorder {
    ghost watcher_state = { λ edits. record {
      notified_changes = Some edits;
      faults = 0;
      never_refuses = ⊥;
      answers = λ _ told. IsNotFailure told;
      written = None;
    } };

    ghost holds = { λ _ _. None };

    fn told(&mut self, doc: &DocId, note: &EditNote) -> Told
        ensures kept_is_listed { result ≡ Told.Kept
            → self.new ≡ self.old ++ record { doc = doc.now; note = note.now } ∷ [] }
        ensures unkept_no_memory { result ≢ Told.Kept → (result ≡ Told.NoMemory)
            × (self.new ≡ self.old) }
        ensures never_fails { IsNotFailure result }
    {
        match self.keep(doc, note) {
            Ok(()) => Told::Kept,
            Err(AllocError) => Told::NoMemory,
        }
    }

    fn kept(&self, _doc: &DocId) -> Option<(&Element, u64)> {
        None
    }
}
