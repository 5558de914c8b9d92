//! The changes of a document since a version of it (RFC 5874, section 3).
ghost use Rattle.std.specs.Prelude.{◌≡◌, ◌==◌, ℕ, List, [], if◌then◌else◌};
ghost use Rattle.std.specs.Option.{option_map};
ghost use Rattle.doc_names.specs.declared.doc_id.DocId.{DocId};
ghost use Rattle.edit_ops.specs.Notes.{Note};
ghost use Rattle.store_core.specs.Contents.{Represents, StoreContents};
ghost use Rattle.store_core.specs.History.{AreRecordsSince};
ghost use Rattle.store_core.specs.ValidStates.{IsValidState};
ghost use Rattle.store_core.specs.Since.{ReportedChanges, notes_from, since};
ghost use Rattle.store_core.specs.inner.ChangesSince.{changes_since_of};
ghost use Rattle.store_core.specs.State.{State};
ghost use Rattle.store_core.specs.ChangesSince.{changes_since_view};

use crate::entry::Entry;
use crate::step::find_entry;
use crate::store::Store;
use doc_names::DocId;
use edit_ops::{EditNote, Notes};

/// What became of a document since the version with an etag.
#[derive(Drop)]
pub enum Since<'a> {
    /// The document isn't stored.
    Gone,
    /// The etag is neither the document's own nor the one before a retained record.
    Unknown,
    /// The records of the changes since, in order; none where the etag is the document's own.
    Changes(Notes<'a>),
}

// The records from the one on that continues from this etag, if there is one.
fn records_from_tag(notes: &[EditNote], tag: u64) -> Option<&[EditNote]>
    ensures exact { option_map (λ found. found.now) result ≡ notes_from tag notes.now }
{
    for (number, note) in notes.iter().enumerate() {
        if note.previous() == tag {
            return Some(&notes[number..]);
        }
    }
    None
}

// The records from this etag on, of the newer ones.
fn newer_records_from_tag(newer: &[EditNote], tag: u64) -> Option<Notes<'_>>
    ensures exact { result ≡ notes_from tag newer.now }
{
    match records_from_tag(newer, tag) {
        Some(found) => Some(Notes::from_pieces(&[], found)),
        None => None,
    }
}

// The records from this etag on, of all.
fn records_from_tag_in<'a>(notes: &Notes<'a>, tag: u64) -> Option<Notes<'a>>
    ensures exact { result ≡ notes_from tag notes.now }
{
    let (older, newer) = notes.pieces();
    match records_from_tag(older, tag) {
        Some(found) => Some(Notes::from_pieces(found, newer)),
        None => newer_records_from_tag(newer, tag),
    }
}

// The changes of an entry's document since this etag.
fn entry_changes_since(entry: &Entry, tag: u64) -> Since<'_>
    ensures exact { changes_since_view result
        ≡ (if entry.now.tag == tag then ReportedChanges []
        else changes_since_of (notes_from tag entry.now.notes)) }
{
    if entry.tag == tag {
        return Since::Changes(Notes::none());
    }
    let notes = entry.notes.notes();
    match records_from_tag_in(&notes, tag) {
        Some(notes) => Since::Changes(notes),
        None => Since::Unknown,
    }
}

impl Store {
    /// What became of a document since the version with this etag: `Gone` exactly where it isn't
    /// stored, `Unknown` exactly where the etag is neither its own nor the one before a retained
    /// record, else the records from there on, borrowed. Does not allocate.
    pub fn since(&self, doc: &DocId, tag: u64) -> Since<'_>
        ensures exact { changes_since_view result ≡ since self.now.content doc.now tag }
    {
        match find_entry(&self.documents, doc) {
            Some(entry) => entry_changes_since(entry, tag),
            None => Since::Gone,
        }
    }
}

/// A law: where contents represent a valid state and the store returns records since an etag, the
/// document has a version with that etag, the records lead from it to the present version, through
/// sound trees, and there are at most `MAX_NOTES`.
pub fn notes_since_a_version_lead_from_it()
    ensures records_lead_here { (c : StoreContents) (m : State) (id : DocId) (tag : ℕ)
        (ns : List Note) → IsValidState m → Represents c m → since c id tag ≡ ReportedChanges ns
        → AreRecordsSince m id tag ns }
{}
