// A folder whose calls are recorded. This is the trusted edge: that each method makes the call that
// it records, that a call does what its answer says, and that a crash leaves what the model allows,
// is read here and proved nowhere.
ghost use Rattle.std.specs.Prelude.{◌≡◌, true, false, None, OnOk, OnErr, IsSome};
ghost use Rattle.log_disk.specs.FolderStates.{opened_folder, with_step, with_write};
ghost use Rattle.log_disk.specs.FolderStates.{with_torn_write};
ghost use Rattle.log_disk.specs.FolderStates.{with_sync, with_failed_sync, with_cut, with_fault};
ghost use Rattle.log_disk.specs.FolderStates.{with_draft};
ghost use Rattle.log_disk.specs.FolderStates.{with_draft_bytes, without_draft, with_ready_draft};
ghost use Rattle.log_disk.specs.FolderStates.{with_rename, with_failed_rename, with_folder_sync};
ghost use Rattle.log_disk.specs.DiskHistories.{disk_history};

use crate::folder_history::FolderHistory;
use crate::{FolderCalls, FolderFault};

/// A folder that holds one file.
#[derive(Drop)]
pub struct Disk<C: FolderCalls + Drop> {
    calls: C,
    history: FolderHistory,
}

impl<C: FolderCalls + Drop> Disk<C> {
    /// A folder whose file has the bytes. It was synced, and so was the folder.
    pub fn new(calls: C, bytes: &[u8]) -> Disk<C>
        ensures exact { disk_history result ≡ opened_folder bytes.now }
    {
        let mut history = FolderHistory::new();
        history.record_opening(bytes);
        Disk { calls, history }
    }

    /// Writes the bytes after all that was written.
    pub fn write(&mut self, bytes: &[u8]) -> Result<(), FolderFault>
        requires not_torn { (disk_history self.old).now.is_torn ≡ false }
        requires not_lost { (disk_history self.old).now.is_lost ≡ false }
        requires settled { (disk_history self.old).now.renamed ≡ None }
        ensures ok { OnOk result
            (disk_history self.new ≡ with_step (disk_history self.old) (with_write bytes.now)) }
        ensures err { OnErr result
            (disk_history self.new
            ≡ with_step (disk_history self.old) (with_torn_write bytes.now)) }
    {
        match self.calls.write(bytes) {
            Ok(()) => {
                self.history.record_write(bytes);
                Ok(())
            }
            Err(FolderFault) => {
                self.history.record_torn_write(bytes);
                Err(FolderFault)
            }
        }
    }

    /// Waits until what was written is on the disk.
    pub fn sync(&mut self) -> Result<(), FolderFault>
        requires not_torn { (disk_history self.old).now.is_torn ≡ false }
        requires not_lost { (disk_history self.old).now.is_lost ≡ false }
        requires settled { (disk_history self.old).now.renamed ≡ None }
        ensures ok { OnOk result
            (disk_history self.new ≡ with_step (disk_history self.old) with_sync) }
        ensures err { OnErr result
            (disk_history self.new ≡ with_step (disk_history self.old) with_failed_sync) }
    {
        match self.calls.sync() {
            Ok(()) => {
                self.history.record_sync();
                Ok(())
            }
            Err(FolderFault) => {
                self.history.record_failed_sync();
                Err(FolderFault)
            }
        }
    }

    /// Truncates the file to its synced bytes.
    pub fn cut(&mut self) -> Result<(), FolderFault>
        requires not_lost { (disk_history self.old).now.is_lost ≡ false }
        requires settled { (disk_history self.old).now.renamed ≡ None }
        ensures ok { OnOk result
            (disk_history self.new ≡ with_step (disk_history self.old) with_cut) }
        ensures err { OnErr result
            (disk_history self.new ≡ with_step (disk_history self.old) with_fault) }
    {
        match self.calls.cut() {
            Ok(()) => {
                self.history.record_cut();
                Ok(())
            }
            Err(FolderFault) => {
                self.history.record_fault();
                Err(FolderFault)
            }
        }
    }

    /// Begins an empty draft in place of any other, and returns random bytes to mark it with.
    pub fn begin_draft(&mut self) -> Result<[u8; 8], FolderFault>
        requires not_lost { (disk_history self.old).now.is_lost ≡ false }
        requires settled { (disk_history self.old).now.renamed ≡ None }
        ensures ok { OnOk result
            (disk_history self.new ≡ with_step (disk_history self.old) with_draft) }
        ensures err { OnErr result
            (disk_history self.new ≡ with_step (disk_history self.old) without_draft) }
    {
        match self.calls.begin_draft() {
            Ok(mark) => {
                self.history.record_draft();
                Ok(mark)
            }
            Err(FolderFault) => {
                self.history.record_draft_fault();
                Err(FolderFault)
            }
        }
    }

    /// Writes the bytes after those of the draft.
    pub fn write_draft(&mut self, bytes: &[u8]) -> Result<(), FolderFault>
        requires not_lost { (disk_history self.old).now.is_lost ≡ false }
        requires settled { (disk_history self.old).now.renamed ≡ None }
        requires begun { IsSome (disk_history self.old).now.draft }
        ensures ok { OnOk result
            (disk_history self.new
            ≡ with_step (disk_history self.old) (with_draft_bytes bytes.now)) }
        ensures err { OnErr result
            (disk_history self.new ≡ with_step (disk_history self.old) without_draft) }
    {
        match self.calls.write_draft(bytes) {
            Ok(()) => {
                self.history.record_draft_bytes(bytes);
                Ok(())
            }
            Err(FolderFault) => {
                self.history.record_draft_fault();
                Err(FolderFault)
            }
        }
    }

    /// Waits until the draft is on the disk.
    pub fn sync_draft(&mut self) -> Result<(), FolderFault>
        requires not_lost { (disk_history self.old).now.is_lost ≡ false }
        requires settled { (disk_history self.old).now.renamed ≡ None }
        requires begun { IsSome (disk_history self.old).now.draft }
        ensures ok { OnOk result
            (disk_history self.new ≡ with_step (disk_history self.old) with_ready_draft) }
        ensures err { OnErr result
            (disk_history self.new ≡ with_step (disk_history self.old) without_draft) }
    {
        match self.calls.sync_draft() {
            Ok(()) => {
                self.history.record_ready_draft();
                Ok(())
            }
            Err(FolderFault) => {
                self.history.record_draft_fault();
                Err(FolderFault)
            }
        }
    }

    /// Gives the draft the file's name.
    pub fn rename_draft(&mut self) -> Result<(), FolderFault>
        requires not_lost { (disk_history self.old).now.is_lost ≡ false }
        requires settled { (disk_history self.old).now.renamed ≡ None }
        requires begun { IsSome (disk_history self.old).now.draft }
        requires ready { (disk_history self.old).now.is_ready ≡ true }
        ensures ok { OnOk result
            (disk_history self.new ≡ with_step (disk_history self.old) with_rename) }
        ensures err { OnErr result
            (disk_history self.new ≡ with_step (disk_history self.old) with_failed_rename) }
    {
        match self.calls.rename_draft() {
            Ok(()) => {
                self.history.record_rename();
                Ok(())
            }
            Err(FolderFault) => {
                self.history.record_failed_rename();
                Err(FolderFault)
            }
        }
    }

    /// Waits until the draft's new name is on the disk.
    pub fn sync_folder(&mut self) -> Result<(), FolderFault>
        requires not_lost { (disk_history self.old).now.is_lost ≡ false }
        ensures ok { OnOk result
            (disk_history self.new ≡ with_step (disk_history self.old) with_folder_sync) }
        ensures err { OnErr result
            (disk_history self.new ≡ with_step (disk_history self.old) with_failed_sync) }
    {
        match self.calls.sync_folder() {
            Ok(()) => {
                self.history.record_folder_sync();
                Ok(())
            }
            Err(FolderFault) => {
                self.history.record_failed_sync();
                Err(FolderFault)
            }
        }
    }

    /// The calls on the folder.
    pub fn calls(&self) -> &C {
        &self.calls
    }
}
