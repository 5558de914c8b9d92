//! Lists of change records.
ghost use Rattle.std.specs.Prelude.{◌≡◌, ◌++◌, [], slice_get};
ghost use Rattle.std.specs.Option.{option_copied};
ghost use Rattle.edit_ops.specs.RecordParts.{has_no_notes};

use crate::edit_note::EditNote;
use std::marker::Model;

/// Change records in order, in two pieces, as a ring buffer has them. Contracts see one list.
#[derive(Drop)]
pub struct Notes<'a> {
    older: &'a [EditNote],
    newer: &'a [EditNote],
}

impl<'a> Model for Notes<'a> {
    ghost use Rattle.std.specs.Prelude.{◌++◌, List};
    ghost use Rattle.std.specs.Coded.{codes};
    ghost use Rattle.edit_ops.specs.contracts.change.Change as c;
    ghost use Rattle.edit_ops.specs.Notes.{Note};

    ghost Value = { List Note };

    ghost coded = { Prim.hlevel (codes, c.the_row.coded) };

    ghost view = { λ n. n.older.now ++ n.newer.now };
}

impl<'a> Notes<'a> {
    /// No records. Does not allocate.
    pub fn none() -> Notes<'a>
        ensures holds_no_notes { result ≡ [] }
    {
        Notes {
            older: &[],
            newer: &[],
        }
    }

    /// The older records, then the newer ones. Does not allocate.
    pub fn from_pieces(older: &'a [EditNote], newer: &'a [EditNote]) -> Notes<'a>
        ensures joins_pieces { result ≡ older.now ++ newer.now }
    {
        Notes { older, newer }
    }

    /// The older records and the newer ones. Does not allocate.
    pub fn pieces(&self) -> (&'a [EditNote], &'a [EditNote])
        ensures exact { result.0.now ++ result.1.now ≡ self.now }
    {
        (self.older, self.newer)
    }

    /// Whether there are none. Does not allocate.
    pub fn is_empty(&self) -> bool
        ensures exact { result ≡ has_no_notes self.now }
    {
        self.older.is_empty() && self.newer.is_empty()
    }

    /// The record of this number, counted from 0: None exactly when there are fewer. Does not
    /// allocate.
    pub fn get(&self, number: usize) -> Option<&'a EditNote>
        ensures exact { option_copied result ≡ slice_get self.now number }
    {
        if number < self.older.len() {
            return self.older.get(number);
        }
        self.newer.get(number - self.older.len())
    }
}
