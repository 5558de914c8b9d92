//! The trait of watchers.
ghost use Rattle.std.specs.Prelude.{◌≡◌, ◌≤◌, Option};
ghost use Rattle.std.specs.Option.{option_map};
ghost use Rattle.xcap_io.specs.StreamStates.{CountRises};
ghost use Rattle.doc_names.specs.declared.doc_id.DocId.{DocId as TheDocId};
ghost use Rattle.watchers.specs.MirrorContents.{MirroredDocument};
ghost use Rattle.watchers.specs.Notifications.{with_edit};
ghost use Rattle.watchers.specs.WatcherStates.{WatcherState};
ghost use Rattle.watchers.specs.WrittenLines.{WroteLineIfSeen};

use doc_names::DocId;
use edit_ops::EditNote;
use xml_tree::Element;

/// The result of notifying a watcher of a change.
#[derive(Clone, Copy, PartialEq, Eq)]
pub enum Told {
    /// It was notified, and goes on.
    Kept,
    /// Something that it uses failed.
    Failed,
    /// It was out of memory.
    NoMemory,
}

/// An object that is notified of changes, one after the other.
pub trait Watcher: Drop {
    /// What contracts see of it.
    ghost watcher_state: { Self → WatcherState };

    /// What it keeps of a document.
    ghost holds: { Self → TheDocId → Option MirroredDocument };

    /// Notifies it of a change. `Kept` appends the change to those of which it was notified, and
    /// the change's line to the bytes that it wrote. `Failed` comes only where its fault counter
    /// rose.
    fn told(&mut self, doc: &DocId, note: &EditNote) -> Told
        ensures kept_is_listed { result ≡ Told.Kept
            → (watcher_state self.new).notified_changes
            ≡ with_edit (watcher_state self.old).notified_changes
            (record { doc = doc.now; note = note.now }) }
        ensures failed_counts_fault { result ≡ Told.Failed
            → CountRises (watcher_state self.old).faults (watcher_state self.new).faults }
        ensures faults_never_fall { (watcher_state self.old).faults
            ≤ (watcher_state self.new).faults }
        ensures never_refuses_kept { (watcher_state self.old).never_refuses
            → (result ≡ Told.Kept) × (watcher_state self.new).never_refuses }
        ensures writes_line { WroteLineIfSeen (watcher_state self.old).written
            (record { doc = doc.now; note = note.now }) result (watcher_state self.new).written }
        ensures answers_by_kind { (watcher_state self.old).answers
            (record { doc = doc.now; note = note.now }) result };

    /// The kept tree of a document, and the number of the change that made it; None for a watcher
    /// that keeps no trees. Does not allocate.
    fn kept(&self, doc: &DocId) -> Option<(&Element, u64)>
        ensures lends_stored { option_map (λ held. (held.0.now, held.1)) result
            ≡ holds self.now doc.now };
}
