// A log of changes in a folder.
ghost use Rattle.std.specs.Prelude.{◌≡◌, ◌≤◌, ◌<◌, ◌+◌, ◌-◌, ◌^◌, length, true, false, Some};
ghost use Rattle.std.specs.Prelude.{OnOk, OnErr, MatchResult};
ghost use Rattle.log_entries.specs.Entries.{entry_bytes};
ghost use Rattle.change_log.specs.declared.limits.TheConstants.{MAX_CONTENT_BYTES};
ghost use Rattle.change_log.specs.LogContents.{snapshot_of, with_change};
ghost use Rattle.change_log.specs.LogHistories.{settled_moment, without_open_change};
ghost use Rattle.change_log.specs.LogHistories.{with_open_change, IsFoundBeforeOr, MayBeFound};
ghost use Rattle.change_log.specs.LogHistories.{HoldsAtEachMoment};
ghost use Rattle.change_log.specs.LogStates.{FailsToAppend};
ghost use Rattle.folder_log.specs.FileFormat.{change_entry};
ghost use Rattle.folder_log.specs.FolderLogs.{IsSoundLog, log_parts, log_state};
ghost use Rattle.folder_log.specs.inner.DraftSteps.{HasEndedDraft, HasReadyDraft};
ghost use Rattle.folder_log.specs.inner.DraftSteps.{KeepsMarksAndNumber, KeepsMarksAndDraft};

use crate::entry_kinds::{EntryKind, entry_of_kind};
use change_log::{AppendFault, ChangeLog, LogHistory, SnapshotFault};
use log_disk::{Disk, FolderCalls, FolderFault};
use std::alloc::Global;

/// A log of changes in a folder.
#[derive(Drop)]
pub struct FolderLog<C: FolderCalls + Drop> {
    pub(crate) disk: Disk<C>,
    pub(crate) history: LogHistory,
    pub(crate) mark: [u8; 8],
    pub(crate) draft_mark: [u8; 8],
    pub(crate) next: u64,
    pub(crate) is_begun: bool,
    pub(crate) has_draft: bool,
    pub(crate) is_torn: bool,
    pub(crate) is_stopped: bool,
}

// A mark has eight bytes.
fn eight_bytes(mark: [u8; 8]) -> [u8; 8]
    ensures same { result ≡ mark }
    ensures marked { length result ≡ 8 }
{
    mark
}

impl<C: FolderCalls + Drop> FolderLog<C> {
    /// The folder that the log is in.
    pub fn disk(&self) -> &Disk<C> {
        &self.disk
    }

    // Takes back what a failed write may have left, and waits until the disk has that. A failed
    // sync is never tried again.
    fn cut_torn_write(&mut self) -> Result<(), FolderFault>
        requires is_sound { IsSoundLog self.old }
        requires begun { self.old.is_begun ≡ true }
        requires not_stopped { self.old.is_stopped ≡ false }
        ensures healed { OnOk result ((self.new.is_torn ≡ false) × (self.new.is_stopped ≡ false)) }
        ensures taken_back { OnOk result
            (self.new.history.log.now ≡ without_open_change self.old.history.log.now) }
        ensures err_same { OnErr result (self.new.history.log.now ≡ self.old.history.log.now) }
        ensures counts { MatchResult result
            (λ _. (log_state (log_parts self.new)).faults ≡ (log_state (log_parts self.old)).faults)
            (λ _. (log_state (log_parts self.old)).faults
            < (log_state (log_parts self.new)).faults) }
        ensures any_moment { HoldsAtEachMoment (MayBeFound self.old.history.log.now)
            self.old.history.log self.new.history.log }
        ensures same_rest { KeepsMarksAndDraft (log_parts self.old) (log_parts self.new) }
        ensures same_next { self.new.next ≡ self.old.next }
        ensures still_sound { IsSoundLog self.new }
    {
        if !self.is_torn {
            return Ok(());
        }
        if let Err(FolderFault) = self.disk.cut() {
            self.history.record_no_change();
            return Err(FolderFault);
        }
        self.history.record_no_change();
        self.is_torn = false;
        if let Err(FolderFault) = self.disk.sync() {
            self.history.record_no_change();
            self.is_stopped = true;
            return Err(FolderFault);
        }
        self.history.record_no_open_change();
        Ok(())
    }

    // Writes the entry of a change, and waits until the disk has it. What a failed write leaves is
    // taken back at once, if it can be.
    fn commit(&mut self, change: &[u8], entry: &[u8]) -> Result<(), FolderFault>
        requires is_sound { IsSoundLog self.old }
        requires begun { self.old.is_begun ≡ true }
        requires not_torn { self.old.is_torn ≡ false }
        requires not_stopped { self.old.is_stopped ≡ false }
        requires short { length change.now ≤ MAX_CONTENT_BYTES }
        requires numbers_left { self.old.next < 2 ^ 64 - 1 }
        requires is_entry { entry.now
            ≡ entry_bytes self.old.mark (change_entry self.old.next change.now) }
        ensures appended { OnOk result (self.new.history.log.now
            ≡ settled_moment (with_change change.now self.old.history.log.now.kept)) }
        ensures not_appended { OnErr result (FailsToAppend change.now
            self.old.history.log.now self.new.history.log.now) }
        ensures counts { MatchResult result
            (λ _. (log_state (log_parts self.new)).faults ≡ (log_state (log_parts self.old)).faults)
            (λ _. (log_state (log_parts self.old)).faults
            < (log_state (log_parts self.new)).faults) }
        ensures any_moment { HoldsAtEachMoment
            (IsFoundBeforeOr self.old.history.log
            (with_change change.now self.old.history.log.now.kept))
            self.old.history.log self.new.history.log }
        ensures same_rest { KeepsMarksAndDraft (log_parts self.old) (log_parts self.new) }
        ensures still_sound { IsSoundLog self.new }
    {
        if let Err(FolderFault) = self.disk.write(entry) {
            self.history.record_open_change(change);
            self.is_torn = true;
            let _ = self.cut_torn_write();
            return Err(FolderFault);
        }
        self.history.record_open_change(change);
        if let Err(FolderFault) = self.disk.sync() {
            self.history.record_no_change();
            self.is_stopped = true;
            return Err(FolderFault);
        }
        self.history.record_appended_change(change);
        self.next += 1;
        Ok(())
    }

    // Ends the draft with this entry, and waits until it is on the disk. The draft is of no further
    // use after an error.
    fn end_draft(&mut self, entry: &[u8]) -> Result<(), FolderFault>
        requires is_sound { IsSoundLog self.old }
        requires draft_begun { self.old.has_draft ≡ true }
        requires not_stopped { self.old.is_stopped ≡ false }
        ensures ended { OnOk result
            (HasEndedDraft (log_parts self.old) (log_parts self.new) entry.now) }
        ensures counts { MatchResult result
            (λ _. (log_state (log_parts self.new)).faults ≡ (log_state (log_parts self.old)).faults)
            (λ _. (log_state (log_parts self.old)).faults
            < (log_state (log_parts self.new)).faults) }
        ensures same_log { self.new.history.log.now ≡ self.old.history.log.now }
        ensures same_parts { self.new.history.log.draft ≡ self.old.history.log.draft }
        ensures any_moment { HoldsAtEachMoment (MayBeFound self.old.history.log.now)
            self.old.history.log self.new.history.log }
        ensures same_fields { KeepsMarksAndNumber (log_parts self.old) (log_parts self.new) }
        ensures no_draft { self.new.has_draft ≡ false }
        ensures still_sound { IsSoundLog self.new }
    {
        self.has_draft = false;
        if let Err(FolderFault) = self.disk.write_draft(entry) {
            self.history.record_no_change();
            return Err(FolderFault);
        }
        self.history.record_no_change();
        if let Err(FolderFault) = self.disk.sync_draft() {
            self.history.record_no_change();
            return Err(FolderFault);
        }
        self.history.record_no_change();
        Ok(())
    }

    // Renames the draft, which is on the disk and ended with this number, and waits until the
    // folder has that.
    fn install_snapshot(&mut self, first: u64) -> Result<(), FolderFault>
        requires is_sound { IsSoundLog self.old }
        requires not_stopped { self.old.is_stopped ≡ false }
        requires no_draft { self.old.has_draft ≡ false }
        requires ready { HasReadyDraft (log_parts self.old) first }
        ensures replaced { OnOk result (self.new.history.log.now
            ≡ settled_moment (snapshot_of self.old.history.log.draft first)) }
        ensures begun { OnOk result (self.new.is_begun ≡ true) }
        ensures stopped { OnErr result (self.new.is_stopped ≡ true) }
        ensures same_phase { OnErr result (self.new.is_begun ≡ self.old.is_begun) }
        ensures cause { OnErr result ((log_state (log_parts self.old)).faults
            < (log_state (log_parts self.new)).faults) }
        ensures any_moment { HoldsAtEachMoment
            (IsFoundBeforeOr self.old.history.log (snapshot_of self.old.history.log.draft first))
            self.old.history.log self.new.history.log }
        ensures still_sound { IsSoundLog self.new }
    {
        if let Err(FolderFault) = self.disk.rename_draft() {
            self.history.record_possible_snapshot(first);
            self.is_stopped = true;
            return Err(FolderFault);
        }
        self.history.record_possible_snapshot(first);
        if let Err(FolderFault) = self.disk.sync_folder() {
            self.history.record_no_change();
            self.is_stopped = true;
            return Err(FolderFault);
        }
        self.history.record_snapshot(first);
        self.mark = self.draft_mark;
        self.next = first;
        self.is_begun = true;
        self.is_torn = false;
        Ok(())
    }
}

impl<C: FolderCalls + Drop> ChangeLog for FolderLog<C> {
    ghost use Rattle.folder_log.specs.FolderLogs.{IsSoundLog, log_parts, log_state};

    ghost state = { λ log. log_state (log_parts log) };

    ghost sound = { λ log. IsSoundLog log };

    fn next_number(&self) -> u64 {
        self.next
    }

    fn is_stopped(&self) -> bool {
        self.is_stopped
    }

    fn append(&mut self, alloc: Global, change: &[u8]) -> Result<u64, AppendFault> {
        if self.is_stopped {
            return Err(AppendFault::Failed);
        }
        let entry = entry_of_kind(alloc, &self.mark, self.next, EntryKind::Change, change)?;
        let number = self.next;
        if let Err(FolderFault) = self.cut_torn_write() {
            return Err(AppendFault::Failed);
        }
        if let Err(FolderFault) = self.commit(change, &entry) {
            return Err(AppendFault::Failed);
        }
        Ok(number)
    }

    fn begin_snapshot(&mut self) -> Result<(), SnapshotFault> {
        if self.is_stopped {
            return Err(SnapshotFault::NotWritten);
        }
        match self.disk.begin_draft() {
            Ok(mark) => {
                self.history.begin_draft();
                self.draft_mark = eight_bytes(mark);
                self.has_draft = true;
                Ok(())
            }
            Err(FolderFault) => {
                self.history.record_no_change();
                self.has_draft = false;
                Err(SnapshotFault::NotWritten)
            }
        }
    }

    fn add_part(&mut self, alloc: Global, part: &[u8]) -> Result<(), SnapshotFault> {
        if self.is_stopped {
            return Err(SnapshotFault::NotWritten);
        }
        let entry = entry_of_kind(alloc, &self.draft_mark, 0, EntryKind::Part, part)?;
        if let Err(FolderFault) = self.disk.write_draft(&entry) {
            self.history.record_no_change();
            self.has_draft = false;
            return Err(SnapshotFault::NotWritten);
        }
        self.history.add_part(part);
        Ok(())
    }

    fn finish_snapshot(&mut self, alloc: Global, first: u64) -> Result<(), SnapshotFault> {
        if self.is_stopped {
            return Err(SnapshotFault::NotWritten);
        }
        let entry = entry_of_kind(alloc, &self.draft_mark, first, EntryKind::SnapshotEnd, &[])?;
        if let Err(FolderFault) = self.end_draft(&entry) {
            return Err(SnapshotFault::NotWritten);
        }
        if let Err(FolderFault) = self.install_snapshot(first) {
            return Err(SnapshotFault::NotSettled);
        }
        Ok(())
    }
}
