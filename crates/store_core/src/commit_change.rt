//! Commits prepared changes.
ghost use Rattle.std.specs.Prelude.{◌≡◌, IfOk, OnErr};
ghost use Rattle.store_core.specs.ChangePreconditions.{MayRequest};
ghost use Rattle.store_core.specs.DocumentChanges.{change_result, contents_after};
ghost use Rattle.store_core.specs.PreparedChanges.{IsReady, IsChangeOutcome};

use crate::prepared_change::Prepared;
use crate::refusal::StoreRefusal;
use crate::registry::{register_addresses, release_addresses};
use crate::store::Store;
use doc_names::DocId;
use edit_ops::{Change, Edit, EditNote};
use std::alloc::AllocError;

impl Store {
    /// Commits a prepared change, and returns the document's name and the change record, moved out
    /// of it. Nothing may have changed since `prepare`. Does not allocate.
    pub fn commit(&mut self, prepared: Prepared) -> Edit
        requires { IsReady self.old prepared }
        ensures holds_change { self.new.content
            ≡ contents_after self.old.content prepared.doc prepared.note.change }
        ensures prepared_edit { result ≡ record { doc = prepared.doc; note = prepared.note } }
    {
        let Prepared {
            doc,
            note,
            step,
            leaves,
            enters,
            total,
        } = prepared;
        release_addresses(&mut self.services, leaves.as_slice());
        let number = note.next();
        let created = step.apply_to(&mut self.documents, &doc, number);
        register_addresses(&mut self.services, enters.into_vec(), created);
        self.last = number;
        self.total = total;
        Edit { doc, note }
    }

    /// Makes a change of a document, under the next number, and returns its record; or the first
    /// reason against it, in the order of `StoreRefusal`. The conditions are those of `prepare`.
    /// If it isn't made, the store's contents are unchanged.
    ///
    /// # Errors
    /// `AllocError` when out of memory.
    pub fn change(
        &mut self,
        doc: DocId,
        change: Change,
    ) -> Result<Result<EditNote, StoreRefusal>, AllocError>
        requires { MayRequest self.old.content doc change }
        ensures changed_or_refused { IfOk result
            (λ r. IsChangeOutcome (change_result self.old.content doc change) r self.old.content
            self.new.content) }
        ensures no_memory_unchanged { OnErr result (self.new.content ≡ self.old.content) }
    {
        match self.prepare(doc, change)? {
            Ok(prepared) => Ok(Ok(self.commit(prepared).note)),
            Err(refusal) => Ok(Err(refusal)),
        }
    }
}
