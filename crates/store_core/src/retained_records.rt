//! The retained records of a document's changes (RFC 5874, section 3).
ghost use Rattle.std.specs.Prelude.{◌≡◌, ◌+◌, ◌<◌, ◌≤◌, ◌++◌, ◌∷◌, [], true, false, length, IfOk};
ghost use Rattle.edit_ops.specs.DiffOperations.{weight};
ghost use Rattle.store_core.specs.State.{is_within_retention, retained_notes};
ghost use Rattle.store_core.specs.inner.RecordRings.{IsRecordRing, counted_weight, optional_weight};

use crate::limits::{MAX_NOTES, MAX_WEIGHT};
use circular_buffer::HeapCircularBuffer;
use edit_ops::{EditNote, Notes};
use std::alloc::{AllocError, Global};
use std::marker::Model;

type NoteRing = HeapCircularBuffer<EditNote>;

/// The ring of a document's last change records: at most as many, and as heavy together, as may be
/// retained. Contracts see them in order.
#[derive(Drop)]
pub struct RetainedRecords {
    ring: NoteRing,
    // The sum of their counted weights.
    count: usize,
}

impl Model for RetainedRecords {
    ghost use Rattle.std.specs.Prelude.{List};
    ghost use Rattle.std.specs.Coded.{codes};
    ghost use Rattle.edit_ops.specs.contracts.change.Change as c;
    ghost use Rattle.edit_ops.specs.Notes.{Note};
    ghost use Rattle.store_core.specs.inner.RecordRings.{IsRecordRing};

    ghost Value = { List Note };

    ghost coded = { Prim.hlevel (codes, c.the_row.coded) };

    ghost view = { λ r. r.ring.items };

    ghost invariant = { λ r. IsRecordRing r.ring r.count };
}

impl RetainedRecords {
    /// An empty ring, with capacity for as many records as may be retained.
    pub(crate) fn new(alloc: Global) -> Result<RetainedRecords, AllocError>
        ensures holds_no_notes { IfOk result (λ made. made ≡ []) }
    {
        let ring = HeapCircularBuffer::with_capacity(alloc, MAX_NOTES)?;
        Ok(RetainedRecords { ring, count: 0 })
    }

    /// Borrows the records. Does not allocate.
    pub(crate) fn notes(&self) -> Notes<'_>
        ensures same_records { result ≡ self.now }
    {
        let (older, newer) = self.ring.as_slices();
        Notes::from_pieces(older, newer)
    }

    /// Appends a record, and drops the oldest ones that are not retained with it. Does not
    /// allocate.
    pub(crate) fn keep(&mut self, note: EditNote)
        ensures keeps_retained { self.new ≡ retained_notes (self.old ++ note ∷ []) }
    {
        keep(&mut self.ring, &mut self.count, note);
    }
}

// ---- the ring

// The counted weight of a record: its weight, capped at one byte more than the limit of all
// together.
fn counted_weight(note: &EditNote) -> usize
    ensures exact { result ≡ counted_weight note.now }
{
    note.weight().min(MAX_WEIGHT + 1)
}

// Subtracts the weight of a dropped record, if there is one.
fn subtract_weight(count: &mut usize, note: Option<EditNote>)
    requires { optional_weight note ≤ count.old }
    ensures count_less_record { count.new + optional_weight note ≡ count.old }
{
    if let Some(note) = note {
        *count -= counted_weight(&note);
    }
}

// Whether the oldest record of a ring has to go, where all count `count` together.
fn exceeds_weight_limit(notes: &NoteRing, count: usize) -> bool
    requires { IsRecordRing notes.now count }
    ensures heavy_exceeds { result ≡ true → (1 < length notes.now.items)
        × (is_within_retention weight notes.now.items ≡ false) }
    ensures light_is_whole { result ≡ false → retained_notes notes.now.items ≡ notes.now.items }
{
    if notes.len() <= 1 {
        return false;
    }
    count > MAX_WEIGHT
}

// Drops the oldest records, until the others may be retained.
fn trim(notes: &mut NoteRing, count: &mut usize)
    requires { IsRecordRing notes.old count.old }
    ensures ring_counted { IsRecordRing notes.new count.new }
    ensures keeps_retained { notes.new.items ≡ retained_notes notes.old.items }
{
    'oldest: while exceeds_weight_limit(notes, *count) {
        subtract_weight(count, notes.pop_front());
    }
}

// Appends a record; the oldest one is dropped if the ring is full.
fn push(notes: &mut NoteRing, count: &mut usize, note: EditNote)
    requires { IsRecordRing notes.old count.old }
    ensures ring_counted { IsRecordRing notes.new count.new }
    ensures retained_with_record { retained_notes notes.new.items
        ≡ retained_notes (notes.old.items ++ note ∷ []) }
{
    let _count = notes.len();
    *count += counted_weight(&note);
    subtract_weight(count, notes.push_back(note));
}

// Appends a record, and drops the oldest ones that are not retained with it.
fn keep(notes: &mut NoteRing, count: &mut usize, note: EditNote)
    requires { IsRecordRing notes.old count.old }
    ensures ring_counted { IsRecordRing notes.new count.new }
    ensures keeps_retained { notes.new.items ≡ retained_notes (notes.old.items ++ note ∷ []) }
{
    push(notes, count, note);
    trim(notes, count);
}
