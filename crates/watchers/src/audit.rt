//! A watcher that writes a line about each change.
ghost use Rattle.std.specs.Prelude.{◌≡◌, ⊤, None, Some};
ghost use Rattle.watchers.specs.Audits.{WritesAuditLine};

use crate::line::audit_line;
use crate::watcher::{Told, Watcher};
use doc_names::DocId;
use edit_ops::EditNote;
use std::alloc::Global;
use xcap_io::{Failed, Line, Sink, write_all};
use xml_tree::Element;

/// A sink that gets one line for each change: the change's number, the document's printed id, a
/// word, and for all changes but the creation and the removal of a document the place of the
/// change as a selector.
#[derive(Drop)]
pub struct Audit<S: Sink> {
    alloc: Global,
    sink: S,
}

impl<S: Sink> Audit<S> {
    /// Writes to this sink. Does not allocate; each line is allocated by `alloc`.
    pub fn new(alloc: Global, sink: S) -> Audit<S>
        ensures same_sink { result.sink ≡ sink }
    {
        Audit { alloc, sink }
    }

    /// Borrows the sink. Does not allocate.
    pub fn sink(&self) -> &S
        ensures exact { result.now ≡ self.now.sink }
    {
        &self.sink
    }
}

impl<S: Sink + Drop> Watcher for Audit<S> {
    ghost watcher_state = { λ a. record {
      notified_changes = None;
      faults = (S.state a.sink).write_faults;
      never_refuses = ⊥;
      answers = λ _ _. ⊤;
      written = Some (S.state a.sink).taken;
    } };

    ghost holds = { λ _ _. None };

    fn told(&mut self, doc: &DocId, note: &EditNote) -> Told
        ensures audits_change { WritesAuditLine (S.state self.old.sink)
            (record { doc = doc.now; note = note.now }) result (S.state self.new.sink) }
    {
        let line = match audit_line(self.alloc, doc, note) {
            Ok(line) => line,
            Err(_) => return Told::NoMemory,
        };
        match write_all(&mut self.sink, line.as_bytes()) {
            Ok(()) => Told::Kept,
            Err(Failed) => Told::Failed,
        }
    }

    fn kept(&self, _doc: &DocId) -> Option<(&Element, u64)> {
        None
    }
}
