//! Prepares changes of documents: all memory is taken first, so that `commit` can't fail.
ghost use Rattle.std.specs.Prelude.{◌≡◌, ℕ, ◌≤◌, ◌+◌, [], ◌∷◌, Err, IfErr, IfOk, IfSome, IsSome};
ghost use Rattle.std.specs.Prelude.{IsSomeAnd, None, Ok, OnOk, List, Some, false, length, max, min};
ghost use Rattle.std.specs.Prelude.{option_map, true};
ghost use Rattle.store_core.specs.inner.ChangePlans.{refusal_from_checks, IsStoredAs};
ghost use Rattle.store_core.specs.inner.ChangePlans.{IsCreationOutline};
ghost use Rattle.store_core.specs.inner.ChangePlans.{IsEditOutline};
ghost use Rattle.store_core.specs.inner.ChangePlans.{IsPlanResult};
ghost use Rattle.xml_tree.specs.Tree.{Tree};
ghost use Rattle.usage_docs.specs.Services.{document_len};
ghost use Rattle.usage_docs.specs.declared.schema_table.Key.TheVariants as keys;
ghost use Rattle.edit_ops.specs.declared.change.Change.TheVariants as changes;
ghost use Rattle.store_core.specs.declared.refusal.StoreRefusal.TheVariants as refusals;
ghost use Rattle.store_core.specs.ChangePreconditions.{MayRequest};
ghost use Rattle.store_core.specs.DocumentChanges.{Edits, change_kind, refusal_of_number};
ghost use Rattle.store_core.specs.DocumentChanges.{refusal_of_home, refusal_of_tree};
ghost use Rattle.store_core.specs.declared.limits.TheConstants.{MAX_BYTE_LIMIT};
ghost use Rattle.store_core.specs.DocumentChanges.{change_result, contents_after, find_document};
ghost use Rattle.store_core.specs.DocumentChanges.{stored_id, total_len_of_others};
ghost use Rattle.doc_names.specs.Usages.{usage_of};
ghost use Rattle.store_core.specs.Contents.{StoredDocument};
ghost use Rattle.store_core.specs.ValidStates.{IsSoundDocumentFor, document_addresses};
ghost use Rattle.store_core.specs.inner.Addresses.{AreReplacedAt};
ghost use Rattle.store_core.specs.TreeChanges.{edits_within_root};
ghost use Rattle.store_core.specs.inner.UnsharedTrees.{IsUnshared};
ghost use Rattle.edit_ops.specs.Changes.{FitsTree, edited};
ghost use Rattle.edit_ops.specs.PrintedLengths.{element_len};
ghost use Rattle.store_core.specs.PreparedChanges.{IsReady, total_len};

use crate::addresses::{added_addresses, addresses, first_added_number, removed_addresses};
use crate::change_builder::{Outline, prepare_creation, prepare_edit, prepare_removal};
use crate::entry::Entry;
use crate::home_sums::{other_sums, refusal_from_sums};
use crate::limits::MAX_DOCUMENT_BYTES;
use crate::prepared_change::Prepared;
use crate::put_lengths::{HEAD_LEN, document_len, measure_put, measure_root};
use crate::refusal::StoreRefusal;
use crate::registry::first_conflict;
use crate::root_changes::edits_within_root;
use crate::step::{find_entry, unshare};
use crate::store::Store;
use doc_names::DocId;
use edit_ops::{Change, printed_len_after};
use std::alloc::AllocError;
use usage_docs::{Clash, Key};
use xml_names::{List, Text};
use xml_tree::{Element, Path};

// The length of a document of `len` bytes after a change that puts an element of `put` bytes, at
// most the greatest number.
fn document_len_after(root: &Element, len: usize, change: &Change, put: usize) -> usize
    requires fits { FitsTree root.now change.now }
    requires length_exact { len ≡ document_len root.now }
    requires length_of_part { put ≡ min (element_len change.now) usize.MAX }
    ensures exact { result ≡ min (document_len (edited root.now change.now)) usize.MAX }
{
    printed_len_after(root, len - HEAD_LEN, change, put).saturating_add(HEAD_LEN)
}

// The clash of the service at this index.
fn clash_at(place: usize) -> Clash
    ensures exact { result ≡ record { path = place ∷ []; key = keys.Uri } }
{
    match Path::root().child(place) {
        Some(path) => Clash {
            path,
            key: Key::Uri,
        },
        None => unreachable!(),
    }
}

// The number of the service at an index among the added ones, of which the first has this number:
// if several are added, they are all services of the document, and the first has 0.
fn service_number(first: usize, place: Option<usize>) -> Option<usize>
    ensures exact { result ≡ option_map (λ i. max first i) place }
{
    match place {
        Some(place) => Some(first.max(place)),
        None => None,
    }
}

// The first reason against a tree, from what was found in it.
fn refusal_from_checks(
    place: Option<usize>,
    len: usize,
    is_full: bool,
    others: u64,
    most: u64,
) -> Option<StoreRefusal>
    requires { others ≤ MAX_BYTE_LIMIT }
    ensures exact { result ≡ refusal_from_checks place len is_full others most }
{
    if let Some(place) = place {
        return Some(StoreRefusal::ServiceTaken(clash_at(place)));
    }
    if len > MAX_DOCUMENT_BYTES {
        return Some(StoreRefusal::TooLarge(len));
    }
    if is_full {
        return Some(StoreRefusal::TooMany);
    }
    let total = others + len as u64;
    if total > most {
        return Some(StoreRefusal::StoreFull(total));
    }
    None
}

impl Store {
    // The number of the next change.
    fn next_number(&self) -> Option<u64>
        ensures some_is_free { IfSome result
            (λ n. (n ≡ self.now.content.next) × (refusal_of_number self.now.content ≡ None)) }
        ensures none_at_end { result ≡ None
            → refusal_of_number self.now.content ≡ Some refusals.NoNumber }
    {
        self.last.checked_add(1)
    }

    // The first reason against the tree of a new document, by the tree's length and its service
    // addresses.
    fn refusal_of_new(&self, doc: &DocId, len: usize, uris: &[Text]) -> Option<StoreRefusal>
        requires { find_document stored_id self.now.content.documents doc.now ≡ None }
        ensures first_refusal { (t : Tree) → len ≡ min (document_len t) usize.MAX
            → uris.now ≡ document_addresses doc.now.auid t
            → result ≡ refusal_of_tree self.now.content doc.now true t }
    {
        let place = first_conflict(&self.services, uris, None);
        let is_full = self.documents.len() >= self.limits.documents;
        let most = self.limits.bytes;
        if let Some(refusal) = refusal_from_checks(place, len, is_full, self.total, most) {
            return Some(refusal);
        }
        self.refusal_of_home(doc, len)
    }

    // The first reason against a document of this length by what else its home has. It is looked
    // for only where the documents of one home are limited.
    fn refusal_of_home(&self, doc: &DocId, len: usize) -> Option<StoreRefusal>
        requires { len ≤ MAX_DOCUMENT_BYTES }
        ensures first_refusal { (t : Tree) → len ≡ document_len t
            → result ≡ refusal_of_home self.now.content doc.now t }
    {
        if !self.limits.limits_homes() {
            return None;
        }
        let others = other_sums(&self.documents, doc);
        refusal_from_sums(self.limits, others, len)
    }

    // The entry of a stored document.
    fn stored_entry(&self, doc: &DocId) -> &Entry
        requires { IsSome (find_document stored_id self.now.content.documents doc.now) }
        ensures entry_held { IsStoredAs self.now.content doc.now result.now }
        ensures tree_is_sound { IsSoundDocumentFor (usage_of doc.now.auid) result.now.tree.root }
    {
        match find_entry(&self.documents, doc) {
            Some(entry) => entry,
            None => unreachable!(),
        }
    }

    // The number of bytes of all documents except this stored one.
    fn total_without(&self, doc: &DocId) -> u64
        requires { IsSome (find_document stored_id self.now.content.documents doc.now) }
        ensures exact { result ≡ total_len_of_others self.now.content doc.now }
        ensures is_small { result ≤ MAX_BYTE_LIMIT }
        ensures completes_total { IsSomeAnd
            (find_document stored_id self.now.content.documents doc.now)
            (λ h. result + document_len h.tree ≡ total_len self.now.content) }
    {
        let Some(entry) = find_entry(&self.documents, doc) else {
            unreachable!()
        };
        self.total - entry.len as u64
    }

    // The first reason against a new tree of a stored document, by the tree's length, the added
    // service addresses and the number of the first added service.
    fn refusal_of_edit(
        &self,
        doc: &DocId,
        len: usize,
        first: usize,
        uris: &[Text],
    ) -> Option<StoreRefusal>
        requires { IsSome (find_document stored_id self.now.content.documents doc.now) }
        ensures first_refusal { (h : StoredDocument) (t : Tree) (leaves : List (List ℕ))
            → find_document stored_id self.now.content.documents doc.now ≡ Some h
            → len ≡ min (document_len t) usize.MAX
            → AreReplacedAt first (document_addresses doc.now.auid h.tree) leaves uris.now
            (document_addresses doc.now.auid t)
            → result ≡ refusal_of_tree self.now.content doc.now false t }
    {
        let Some(entry) = find_entry(&self.documents, doc) else {
            unreachable!()
        };
        let place = first_conflict(&self.services, uris, Some(entry.created));
        let others = self.total - entry.len as u64;
        let place = service_number(first, place);
        if let Some(refusal) = refusal_from_checks(place, len, false, others, self.limits.bytes) {
            return Some(refusal);
        }
        self.refusal_of_home(doc, len)
    }

    /// The outline of a new document with this tree, or the first reason against it.
    ///
    /// # Errors
    /// `AllocError` when out of memory.
    pub(crate) fn outline_creation(
        &self,
        doc: &DocId,
        root: &Element,
    ) -> Result<Result<Outline, StoreRefusal>, AllocError>
        requires { MayRequest self.now.content doc.now (changes.CreateDocument root.now) }
        ensures ok_outline { IfOk result
            (λ r. IfOk r (λ o. IsCreationOutline self.now.content doc.now root.now o)) }
        ensures err_refusal { IfOk result
            (λ r.
            IfErr r (λ e. IsPlanResult self.now.content doc.now (changes.CreateDocument root.now)
            (Err e))) }
    {
        let enters = addresses(self.alloc, doc.auid, root)?;
        let put = measure_root(self.alloc, root);
        let len = document_len(put.len);
        if let Some(refusal) = self.refusal_of_new(doc, len, enters.as_slice()) {
            return Ok(Err(refusal));
        }
        let Some(number) = self.next_number() else {
            return Ok(Err(StoreRefusal::NoNumber));
        };
        let sum = self.total();
        let total = sum.saturating_add(len as u64);
        let leaves = List::empty(self.alloc);
        Ok(Ok(Outline {
            number,
            put,
            len,
            total,
            leaves,
            enters,
        }))
    }

    // Plans the creation of a document.
    fn plan_creation(
        &self,
        doc: DocId,
        root: Element,
    ) -> Result<Result<Prepared, StoreRefusal>, AllocError>
        requires { MayRequest self.now.content doc (changes.CreateDocument root) }
        ensures plans_creation { IfOk result
            (IsPlanResult self.now.content doc (changes.CreateDocument root)) }
    {
        match self.outline_creation(&doc, &root)? {
            Ok(outline) => {
                let prepared = prepare_creation(self.alloc, doc, root, outline)?;
                Ok(Ok(prepared))
            }
            Err(refusal) => Ok(Err(refusal)),
        }
    }

    // The outline of the document of this entry after an edit, or the first reason against it.
    fn outline_edit(
        &self,
        doc: &DocId,
        entry: &Entry,
        change: &Change,
    ) -> Result<Result<Outline, StoreRefusal>, AllocError>
        requires asks_change { MayRequest self.now.content doc.now change.now }
        requires edits_document { change_kind change.now ≡ Edits }
        requires stored_there { IsStoredAs self.now.content doc.now entry.now }
        requires is_sound { IsSoundDocumentFor (usage_of doc.now.auid) entry.now.tree.root }
        ensures ok_outline { IfOk result
            (λ r. IfOk r (λ o. IsEditOutline self.now.content doc.now entry.now.tree.root change.now
            o)) }
        ensures err_refusal { IfOk result
            (λ r. IfErr r (λ e. IsPlanResult self.now.content doc.now change.now (Err e))) }
    {
        let tree = entry.tree.root();
        let enters = added_addresses(self.alloc, doc.auid, change)?;
        let put = measure_put(self.alloc, change);
        let len = document_len_after(tree, entry.len, change, put.len);
        let first = first_added_number(change);
        if let Some(refusal) = self.refusal_of_edit(doc, len, first, enters.as_slice()) {
            return Ok(Err(refusal));
        }
        let Some(number) = self.next_number() else {
            return Ok(Err(StoreRefusal::NoNumber));
        };
        let others = self.total_without(doc);
        let total = others.saturating_add(len as u64);
        let leaves = removed_addresses(self.alloc, doc.auid, tree, change)?;
        Ok(Ok(Outline {
            number,
            put,
            len,
            total,
            leaves,
            enters,
        }))
    }

    // Plans an edit of a document.
    fn plan_edit(
        &self,
        doc: DocId,
        change: Change,
    ) -> Result<Result<Prepared, StoreRefusal>, AllocError>
        requires asks_change { MayRequest self.now.content doc change }
        requires edits_document { change_kind change ≡ Edits }
        ensures plans_edit { IfOk result (IsPlanResult self.now.content doc change) }
    {
        let entry = self.stored_entry(&doc);
        match self.outline_edit(&doc, entry, &change)? {
            Ok(outline) => {
                let prepared = prepare_edit(self.alloc, doc, entry, change, outline)?;
                Ok(Ok(prepared))
            }
            Err(refusal) => Ok(Err(refusal)),
        }
    }

    // Plans the removal of a document.
    fn plan_removal(&self, doc: DocId) -> Result<Result<Prepared, StoreRefusal>, AllocError>
        requires { MayRequest self.now.content doc changes.RemoveDocument }
        ensures plans_removal { IfOk result
            (IsPlanResult self.now.content doc changes.RemoveDocument) }
    {
        let Some((tree, tag)) = self.get(&doc) else {
            unreachable!()
        };
        let Some(number) = self.next_number() else {
            return Ok(Err(StoreRefusal::NoNumber));
        };
        let leaves = addresses(self.alloc, doc.auid, tree)?;
        let total = self.total_without(&doc);
        let prepared = prepare_removal(self.alloc, doc, tag, number, leaves, total)?;
        Ok(Ok(prepared))
    }

    // Plans any change.
    fn plan(&self, doc: DocId, change: Change) -> Result<Result<Prepared, StoreRefusal>, AllocError>
        requires { MayRequest self.now.content doc change }
        ensures plans_change { IfOk result (IsPlanResult self.now.content doc change) }
    {
        match change {
            Change::CreateDocument { root } => self.plan_creation(doc, root),
            Change::RemoveDocument => self.plan_removal(doc),
            edit => self.plan_edit(doc, edit),
        }
    }

    // Makes the tree of a document unshared, if a change is one within its root: so it can be made
    // in place.
    fn unshare_tree_for(&mut self, doc: &DocId, change: &Change) -> Result<(), AllocError>
        ensures contents_unchanged { self.new.content ≡ self.old.content }
        ensures tree_unshared { OnOk result
            (edits_within_root change.now ≡ true → IsUnshared self.new.room.trees doc.now) }
    {
        if edits_within_root(change) {
            return unshare(self.alloc, &mut self.documents, doc);
        }
        Ok(())
    }

    // Makes the tree of a change's document unshared, if it is made in place, and reserves the
    // memory that it needs.
    fn reserve_memory(&mut self, prepared: &Prepared) -> Result<(), AllocError>
        ensures contents_unchanged { self.new.content ≡ self.old.content }
        ensures document_room { OnOk result (1 ≤ self.new.room.documents) }
        ensures address_room { OnOk result (length prepared.now.enters ≤ self.new.room.services) }
        ensures tree_unshared { OnOk result
            (edits_within_root prepared.now.note.change ≡ true
            → IsUnshared self.new.room.trees prepared.now.doc) }
    {
        self.unshare_tree_for(&prepared.doc, prepared.note.change())?;
        self.reserve(prepared.added_address_count())
    }

    /// Takes all memory of a change of a document, which `commit` then makes; or returns the first
    /// reason against it, in the order of `StoreRefusal`. A created document isn't stored yet, any
    /// other change is one of a stored document; the new tree may be a document of the application
    /// usage, if it isn't too long. The name is moved; only the name of a new document is copied,
    /// since the store needs one.
    ///
    /// # Errors
    /// `AllocError` when out of memory.
    pub fn prepare(
        &mut self,
        doc: DocId,
        change: Change,
    ) -> Result<Result<Prepared, StoreRefusal>, AllocError>
        requires { MayRequest self.old.content doc change }
        ensures contents_unchanged { self.new.content ≡ self.old.content }
        ensures prepared_change { IfOk result
            (λ r. IfOk r (λ p. (p.doc ≡ doc)
            × (change_result self.old.content doc change
            ≡ Ok (p.note, contents_after self.old.content doc change))
            × (p.note.change ≡ change))) }
        ensures prepared_is_ready { IfOk result (λ r. IfOk r (λ p. IsReady self.new p)) }
        ensures first_refusal { IfOk result
            (λ r. IfErr r (λ e. change_result self.old.content doc change ≡ Err e)) }
    {
        match self.plan(doc, change)? {
            Ok(prepared) => {
                self.reserve_memory(&prepared)?;
                Ok(Ok(prepared))
            }
            Err(refusal) => Ok(Err(refusal)),
        }
    }
}
