// A journal over a sink.
ghost use Rattle.std.specs.Prelude.{◌≡◌, [], nat_lt};
ghost use Rattle.edit_journal.specs.StreamJournals.{stream_journal_state};

use crate::Journal;
use xcap_io::{Failed, Line, Sink, count_fault};

/// A journal that writes its bytes to a sink, from which nothing can be cut. It has its own fault
/// counter, and its first fault is one of the sink.
#[derive(Drop)]
pub struct StreamJournal<'a, O: Sink> {
    output: &'a mut O,
    len: u64,
    faults: u64,
}

impl<'a, O: Sink> StreamJournal<'a, O> {
    /// An empty journal. Does not allocate.
    pub fn new(output: &'a mut O) -> StreamJournal<'a, O>
        ensures sink_state { ⟦<StreamJournal<'a, O> as Journal>⟧.state result
            ≡ stream_journal_state (O.state output.old) output.entry.ghost_name 0 0 }
        ensures holds_nothing { (⟦<StreamJournal<'a, O> as Journal>⟧.state result).held ≡ [] }
        ensures starts_after_taken { (⟦<StreamJournal<'a, O> as Journal>⟧.state result).before
            ≡ (O.state output.old).taken }
    {
        StreamJournal {
            output,
            len: 0,
            faults: 0,
        }
    }

    /// Whether a call has failed.
    pub fn has_failed(&self) -> bool
        ensures exact { result
            ≡ nat_lt 0 (⟦<StreamJournal<'a, O> as Journal>⟧.state self.now).faults }
    {
        self.faults > 0
    }
}

impl<O: Sink> Journal for StreamJournal<'_, O> {
    ghost state = { λ j. stream_journal_state (O.state j.output.now)
        j.output.ghost_name j.len j.faults };

    fn append(&mut self, bytes: &[u8]) -> Result<(), Failed> {
        let mut done = 0;
        while done < bytes.len() {
            match self.output.write(&bytes[done..]) {
                Ok(count) => {
                    done += count;
                    self.len = self.len.saturating_add(count as u64);
                }
                Err(Failed) => return Err(count_fault(&mut self.faults)),
            }
        }
        Ok(())
    }

    fn cut(&mut self, _len: u64) -> Result<(), Failed> {
        Err(count_fault(&mut self.faults))
    }
}
