// The history of a folder, for contracts alone. It occupies no memory, and its calls do nothing at
// run time.
ghost use Rattle.std.specs.Prelude.{◌≡◌, []};
ghost use Rattle.std.specs.Borrow.{ftrue};
ghost use Rattle.log_disk.specs.FolderStates.{History, opened_folder, with_step, with_write};
ghost use Rattle.log_disk.specs.FolderStates.{with_torn_write};
ghost use Rattle.log_disk.specs.FolderStates.{with_sync, with_failed_sync, with_cut, with_fault};
ghost use Rattle.log_disk.specs.FolderStates.{with_draft};
ghost use Rattle.log_disk.specs.FolderStates.{with_draft_bytes, without_draft, with_ready_draft};
ghost use Rattle.log_disk.specs.FolderStates.{with_rename, with_failed_rename, with_folder_sync};

use std::marker::Model;

/// What a folder was at each moment, as contracts see it. Each call here accompanies the call that
/// it records.
#[derive(Drop)]
pub struct FolderHistory {
    pub ghost folder: { History },
}

impl Model for FolderHistory {
    ghost also_owns = { λ _. ftrue };
}

impl FolderHistory {
    /// A folder whose file is empty.
    pub fn new() -> FolderHistory
        ensures exact { result.folder ≡ opened_folder [] }
    {
        FolderHistory {}
    }

    /// The folder was opened, and its file has the bytes.
    pub fn record_opening(&mut self, _bytes: &[u8])
        ensures exact { self.new.folder ≡ opened_folder _bytes.now }
    {}

    /// The bytes were written to the file.
    pub fn record_write(&mut self, _bytes: &[u8])
        ensures exact { self.new.folder ≡ with_step self.old.folder (with_write _bytes.now) }
    {}

    /// A write of the bytes failed.
    pub fn record_torn_write(&mut self, _bytes: &[u8])
        ensures exact { self.new.folder ≡ with_step self.old.folder (with_torn_write _bytes.now) }
    {}

    /// The file was synced.
    pub fn record_sync(&mut self)
        ensures exact { self.new.folder ≡ with_step self.old.folder with_sync }
    {}

    /// A sync failed.
    pub fn record_failed_sync(&mut self)
        ensures exact { self.new.folder ≡ with_step self.old.folder with_failed_sync }
    {}

    /// The file was cut to its synced bytes.
    pub fn record_cut(&mut self)
        ensures exact { self.new.folder ≡ with_step self.old.folder with_cut }
    {}

    /// A call failed that changes nothing.
    pub fn record_fault(&mut self)
        ensures exact { self.new.folder ≡ with_step self.old.folder with_fault }
    {}

    /// An empty draft was begun.
    pub fn record_draft(&mut self)
        ensures exact { self.new.folder ≡ with_step self.old.folder with_draft }
    {}

    /// The bytes were written to the draft.
    pub fn record_draft_bytes(&mut self, _bytes: &[u8])
        ensures exact { self.new.folder ≡ with_step self.old.folder (with_draft_bytes _bytes.now) }
    {}

    /// A call on the draft failed.
    pub fn record_draft_fault(&mut self)
        ensures exact { self.new.folder ≡ with_step self.old.folder without_draft }
    {}

    /// The draft was synced.
    pub fn record_ready_draft(&mut self)
        ensures exact { self.new.folder ≡ with_step self.old.folder with_ready_draft }
    {}

    /// The draft was given the file's name.
    pub fn record_rename(&mut self)
        ensures exact { self.new.folder ≡ with_step self.old.folder with_rename }
    {}

    /// Renaming the draft failed.
    pub fn record_failed_rename(&mut self)
        ensures exact { self.new.folder ≡ with_step self.old.folder with_failed_rename }
    {}

    /// The folder was synced.
    pub fn record_folder_sync(&mut self)
        ensures exact { self.new.folder ≡ with_step self.old.folder with_folder_sync }
    {}
}
