//! A prepared change, which isn't made yet.
ghost use Rattle.std.specs.Prelude.{◌≡◌, length};

use crate::step::EntryStep;
use doc_names::DocId;
use edit_ops::EditNote;
use std::marker::Model;
use xml_names::{List, Text};

/// A change of a document with all its memory. It borrows nothing, and if it is dropped the
/// store's contents are unchanged; but a tree that was shared may then be the document's own.
/// Contracts see the document, the change record and the step.
#[derive(Drop)]
pub struct Prepared {
    pub(crate) doc: DocId,
    pub(crate) note: EditNote,
    pub(crate) step: EntryStep,
    // The removed and the added service addresses.
    pub(crate) leaves: List<Text>,
    pub(crate) enters: List<Text>,
    // The number of bytes of all documents after the change.
    pub(crate) total: u64,
}

impl Model for Prepared {
    ghost use Rattle.store_core.specs.PreparedChanges.{PreparedChange};
    ghost use Rattle.std.specs.Coded.{codes};
    ghost use Rattle.doc_names.specs.contracts.doc_id.DocId as d;
    ghost use Rattle.edit_ops.specs.contracts.change.Change as c;
    ghost use Rattle.store_core.specs.contracts.step.EntryStep as s;

    ghost Value = { PreparedChange };

    ghost coded = { Prim.hlevel (codes, d.the_row.coded, c.the_row.coded, s.the_row.coded) };

    ghost view = { λ p. record {
      doc = p.doc;
      note = p.note;
      step = p.step;
      leaves = p.leaves;
      enters = p.enters;
      total = p.total;
    } };
}

impl Prepared {
    /// Borrows the record of the change. Does not allocate.
    pub fn note(&self) -> &EditNote
        ensures exact { result.now ≡ self.now.note }
    {
        &self.note
    }

    /// The number of added service addresses.
    pub(crate) fn added_address_count(&self) -> usize
        ensures counts_what_enters { result ≡ length self.now.enters }
    {
        self.enters.as_slice().len()
    }
}
