// A journal in memory, for tests and for programs over known bytes.
ghost use Rattle.std.specs.Prelude.{◌≡◌, ◌<◌, ◌≤◌, ◌+◌, ◌^◌, ◌↔◌, ◌++◌, length, nat_le, IfOk};
ghost use Rattle.std.specs.Prelude.{IsTrue};
ghost use Rattle.xcap_io.specs.StreamStates.{CountRises};
ghost use Rattle.xcap_io.specs.MemoryStreams.{count_plus_one};
ghost use Rattle.edit_journal.specs.Journals.{AppendsPiece, TruncatesJournal};
ghost use Rattle.edit_journal.specs.MemoryJournals.{IsFailingCall, AppendsInMemory};
ghost use Rattle.edit_journal.specs.MemoryJournals.{TruncatesInMemory, memory_journal_state};

use crate::Journal;
use std::alloc::{AllocError, Global};
use std::marker::Model;
use xcap_io::{Failed, count_fault};

/// A journal in memory. It takes bytes until its capacity is used up, and fails at the calls that
/// it was set to fail.
#[derive(Drop)]
pub struct MemJournal {
    bytes: Vec<u8>,
    held: usize,
    fails: Vec<u64>,
    calls: u64,
    faults: u64,
}

impl Model for MemJournal {
    ghost use Rattle.std.specs.Prelude.{◌≤◌, length, take};
    ghost use Rattle.edit_journal.specs.MemoryJournals.{MemoryJournal};

    ghost Value = { MemoryJournal };

    ghost view = { λ m. record {
      held = take m.held m.bytes.items;
      room = length m.bytes.items;
      fails = m.fails.items;
      calls = m.calls;
      faults = m.faults;
    } };

    ghost invariant = { λ m. m.held ≤ length m.bytes.items };
}

impl MemJournal {
    /// A journal that has `bytes` and takes `room` bytes in all. The calls whose numbers, counted
    /// from 1, are in `fails` fail.
    pub fn new(
        alloc: Global,
        bytes: &[u8],
        room: usize,
        fails: &[u64],
    ) -> Result<MemJournal, AllocError>
        requires { length bytes.now ≤ room }
        ensures holds_bytes { IfOk result (λ journal. journal ≡ record {
          held = bytes.now;
          room = room;
          fails = fails.now;
          calls = 0;
          faults = 0;
        }) }
    {
        let mut held = vec![in alloc; 0; room]?;
        held[0..bytes.len()].copy_from_slice(bytes);
        Ok(MemJournal {
            bytes: held,
            held: bytes.len(),
            fails: fails.to_vec(alloc)?,
            calls: 0,
            faults: 0,
        })
    }

    /// The bytes of the journal. Does not allocate.
    pub fn held(&self) -> &[u8]
        ensures exact { result.now ≡ self.now.held }
    {
        &self.bytes[..self.held]
    }

    // Counts a call, and returns whether it is to fail.
    fn is_failing_call(&mut self) -> bool
        ensures fails_iff { IsTrue result ↔ IsFailingCall self.old }
        ensures counts_call { self.new ≡ record self.old { calls = count_plus_one self.old.calls } }
    {
        self.calls = self.calls.saturating_add(1);
        self.fails.contains(&self.calls)
    }

    // Counts a fault.
    fn fail(&mut self) -> Failed
        ensures counts_one_more { self.new
            ≡ record self.old { faults = count_plus_one self.old.faults } }
        ensures count_never_falls { self.old.faults ≤ self.new.faults }
        ensures count_rises { CountRises self.old.faults self.new.faults }
    {
        count_fault(&mut self.faults)
    }

    // Appends a piece that fits.
    fn append_piece(&mut self, piece: &[u8])
        requires { length self.old.held + length piece.now ≤ self.old.room }
        ensures exact { self.new ≡ record self.old { held = self.old.held ++ piece.now } }
    {
        let end = self.held + piece.len();
        self.bytes[self.held..end].copy_from_slice(piece);
        self.held = end;
    }

    // Whether a piece fits.
    fn has_room(&self, piece: &[u8]) -> bool
        ensures exact { result ≡ nat_le (length self.now.held + length piece.now) self.now.room }
    {
        piece.len() <= self.bytes.len() - self.held
    }
}

impl Journal for MemJournal {
    ghost state = { memory_journal_state };

    fn append(&mut self, bytes: &[u8]) -> Result<(), Failed>
        requires { length self.old.held + length bytes.now < 2 ^ 64 }
        ensures appends_bytes { AppendsPiece (memory_journal_state self.old)
            (memory_journal_state self.new) result bytes.now }
        ensures as_memory_form { AppendsInMemory self.old self.new result bytes.now }
    {
        let fails = self.is_failing_call();
        if !self.has_room(bytes) {
            return Err(self.fail());
        }
        if fails {
            self.append_piece(&bytes[..bytes.len() / 2]);
            return Err(self.fail());
        }
        self.append_piece(bytes);
        Ok(())
    }

    fn cut(&mut self, len: u64) -> Result<(), Failed>
        requires has_faults { 0 < self.old.faults }
        requires within { len ≤ length self.old.held }
        ensures cuts_to_len { TruncatesJournal (memory_journal_state self.old)
            (memory_journal_state self.new) result len }
        ensures as_memory_form { TruncatesInMemory self.old self.new result len }
    {
        if self.is_failing_call() {
            return Err(self.fail());
        }
        self.held = len as usize;
        Ok(())
    }
}
