//! Puts the documents of a snapshot into a store, each with the etag that it had (RFC 4825,
//! section 8.5).
ghost use Rattle.std.specs.Prelude.{◌≡◌, ◌≤◌, ◌<◌, ◌^◌, ℕ, IfOk, OnOk, OnErr, length};
ghost use Rattle.std.specs.Prelude.{IsTrue, MatchOption, ◌↔◌};
ghost use Rattle.std.specs.Bool.{MatchBool};
ghost use Rattle.std.specs.Option.{option_map};
ghost use Rattle.std.specs.Prelude.{slice_get, true, false};
ghost use Rattle.doc_names.specs.declared.doc_id.DocId.{DocId as TheId};
ghost use Rattle.xml_tree.specs.Tree.{Tree};
ghost use Rattle.edit_ops.specs.declared.change.Change.TheVariants as changes;
ghost use Rattle.store_core.specs.Contents.{Represents};
ghost use Rattle.store_core.specs.ChangePreconditions.{MayRequest};
ghost use Rattle.store_core.specs.RestoredDocuments.{HasNoRecords, RestoresDocument};
ghost use Rattle.store_core.specs.RestoredDocuments.{contents_with, state_with};
ghost use Rattle.store_core.specs.State.{State, new_document};
ghost use Rattle.store_core.specs.ValidStates.{IsValidState};
ghost use Rattle.store_core.specs.inner.RestoredEntries.{IsFreeTag, IsPlannedRestore, is_unused_tag};
ghost use Rattle.store_core.specs.inner.RestoredEntries.{restored_document};

use crate::change_builder::{Outline, prepare_creation};
use crate::prepared_change::Prepared;
use crate::registry::{register_addresses, release_addresses};
use crate::step::Documents;
use crate::store::Store;
use doc_names::DocId;
use std::alloc::AllocError;
use xml_tree::Element;

// Whether the number was given, where this is the last one.
fn is_given(number: u64, last: u64) -> bool
    ensures exact { IsTrue result ↔ ((1 ≤ number) × (number ≤ last)) }
{
    if number == 0 {
        return false;
    }
    number <= last
}

// Whether no document has this etag.
fn is_unused(documents: &Documents, tag: u64) -> bool
    ensures exact { result ≡ is_unused_tag tag documents.now.entries }
{
    for (doc, entry) in documents.iter() {
        if entry.tag == tag {
            return false;
        }
    }
    true
}

// The outline with this number.
fn with_number(outline: Outline, number: u64) -> Outline
    ensures exact { result ≡ record outline { number = number } }
{
    let Outline {
        number: _before,
        put,
        len,
        total,
        leaves,
        enters,
    } = outline;
    Outline {
        number,
        put,
        len,
        total,
        leaves,
        enters,
    }
}

impl Store {
    // Whether a document can have this etag.
    fn is_free_tag(&self, tag: u64) -> bool
        ensures judged { MatchBool result (IsFreeTag self.now.content tag)
            (¬ (IsFreeTag self.now.content tag)) }
    {
        if !is_given(tag, self.last) {
            return false;
        }
        is_unused(&self.documents, tag)
    }

    // Prepares to put a document again, if nothing is against it.
    fn plan_restored(
        &self,
        doc: DocId,
        root: Element,
        tag: u64,
    ) -> Result<Option<Prepared>, AllocError>
        requires may_be { MayRequest self.now.content doc (changes.CreateDocument root) }
        requires no_records { HasNoRecords self.now.content }
        requires numbers_left { self.now.content.next < 2 ^ 64 }
        requires free { IsFreeTag self.now.content tag }
        ensures planned { IfOk result (λ plan. MatchOption plan
            ((m : State) → Represents self.now.content m → IsValidState m
            → ¬ (IsValidState (state_with (new_document doc tag root) m)))
            (λ p. IsPlannedRestore self.now.content p
            × (restored_document p ≡ new_document doc tag root))) }
    {
        match self.outline_creation(&doc, &root)? {
            Ok(outline) => {
                let numbered = with_number(outline, tag);
                let prepared = prepare_creation(self.alloc, doc, root, numbered)?;
                Ok(Some(prepared))
            }
            Err(_refusal) => Ok(None),
        }
    }

    // Puts a prepared document, whose memory is reserved. Does not allocate.
    fn put_restored(&mut self, prepared: Prepared)
        requires planned { IsPlannedRestore self.old.content prepared }
        requires document_room { 1 ≤ self.old.room.documents }
        requires address_room { length prepared.enters ≤ self.old.room.services }
        ensures restored { self.new.content
            ≡ contents_with (restored_document prepared) self.old.content }
    {
        let Prepared {
            doc,
            note,
            step,
            leaves,
            enters,
            total,
        } = prepared;
        release_addresses(&mut self.services, leaves.as_slice());
        let number = note.next();
        let created = step.apply_to(&mut self.documents, &doc, number);
        register_addresses(&mut self.services, enters.into_vec(), created);
        self.total = total;
    }

    // Puts a prepared document.
    fn put_planned(&mut self, prepared: Prepared) -> Result<(), AllocError>
        requires planned { IsPlannedRestore self.old.content prepared }
        ensures restored { OnOk result (self.new.content
            ≡ contents_with (restored_document prepared) self.old.content) }
        ensures err_unchanged { OnErr result (self.new.content ≡ self.old.content) }
    {
        self.reserve(prepared.added_address_count())?;
        self.put_restored(prepared);
        Ok(())
    }

    /// Puts a document of a snapshot into the store, with the etag that it had; the next number
    /// stays. True exactly where the state is valid with it: its etag is below the next number and
    /// no other document's, and no limit and no other document's service address is against it.
    /// No document in the store may have been edited since it was put. The time is linear in the
    /// number of documents.
    ///
    /// # Errors
    /// `AllocError` when out of memory; the contents are then unchanged.
    pub fn restore_document(
        &mut self,
        doc: DocId,
        root: Element,
        tag: u64,
    ) -> Result<bool, AllocError>
        requires may_be { MayRequest self.old.content doc (changes.CreateDocument root) }
        requires no_records { HasNoRecords self.old.content }
        requires numbers_left { self.old.content.next < 2 ^ 64 }
        ensures restored { IfOk result (λ done. RestoresDocument self.old.content
            (new_document doc tag root) done self.new.content) }
        ensures err_unchanged { OnErr result (self.new.content ≡ self.old.content) }
    {
        if !self.is_free_tag(tag) {
            return Ok(false);
        }
        match self.plan_restored(doc, root, tag)? {
            None => Ok(false),
            Some(prepared) => {
                self.put_planned(prepared)?;
                Ok(true)
            }
        }
    }

    /// The name, the tree and the etag of the document at a place in the order of creation. Does
    /// not allocate.
    pub fn document_at(&self, place: usize) -> Option<(&DocId, &Element, u64)>
        ensures exact { option_map (λ x. (x.0.now, x.1.now, x.2)) result
            ≡ option_map {U = TheId × Tree × ℕ} (λ h. (h.id, h.tree, h.tag))
            (slice_get self.now.content.documents place) }
    {
        let (doc, entry) = self.documents.get_index(place)?;
        Some((doc, entry.tree.root(), entry.tag))
    }
}
