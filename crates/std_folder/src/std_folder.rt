// The calls on a folder of the system.

use log_disk::{FolderCalls, FolderFault};
use std::fs::{File, OpenOptions};
use std::hash::{BuildHasher, RandomState};
use std::os::unix::fs::{FileExt, OpenOptionsExt};
use std::{fs, io};

/// A folder of the system, locked as long as this is there.
#[derive(Drop)]
pub struct StdFolder<'a> {
    pub(crate) rt: &'a HostRuntime,
    pub(crate) path: String,
    pub(crate) draft_path: String,
    pub(crate) file: File,
    pub(crate) draft: Option<File>,
    pub(crate) folder: File,
    pub(crate) lock: File,
    pub(crate) len: u64,
    pub(crate) synced: u64,
    pub(crate) draft_len: u64,
}

/// Opens a file, which is made if it is missing, for its owner alone.
pub(crate) fn open_file(rt: &HostRuntime, path: &str) -> io::Result<File> {
    OpenOptions::new()
        .read(true)
        .write(true)
        .create(true)
        .mode(0o600)
        .open(rt, path)
}

// Makes an empty file in place of any other.
fn make_file(rt: &HostRuntime, path: &str) -> io::Result<File> {
    let _ = fs::remove_file(rt, path);
    OpenOptions::new()
        .read(true)
        .write(true)
        .create_new(true)
        .mode(0o600)
        .open(rt, path)
}

fn as_folder_result<T: Drop>(done: io::Result<T>) -> Result<T, FolderFault> {
    match done {
        Ok(value) => Ok(value),
        Err(_) => Err(FolderFault),
    }
}

impl FolderCalls for StdFolder<'_> {
    fn write(&mut self, bytes: &[u8]) -> Result<(), FolderFault> {
        as_folder_result(self.file.write_all_at(bytes, self.len))?;
        self.len = self.len.saturating_add(bytes.len() as u64);
        Ok(())
    }

    fn sync(&mut self) -> Result<(), FolderFault> {
        as_folder_result(self.file.sync_data())?;
        self.synced = self.len;
        Ok(())
    }

    fn cut(&mut self) -> Result<(), FolderFault> {
        as_folder_result(self.file.set_len(self.synced))?;
        self.len = self.synced;
        Ok(())
    }

    fn begin_draft(&mut self) -> Result<[u8; 8], FolderFault> {
        self.draft = None;
        let draft = as_folder_result(make_file(self.rt, self.draft_path.as_str()))?;
        let mark = as_folder_result(RandomState::new(self.rt))?.hash_one(&0u8);
        self.draft = Some(draft);
        self.draft_len = 0;
        Ok(mark.to_be_bytes())
    }

    fn write_draft(&mut self, bytes: &[u8]) -> Result<(), FolderFault> {
        let Some(draft) = &self.draft else {
            return Err(FolderFault);
        };
        as_folder_result(draft.write_all_at(bytes, self.draft_len))?;
        self.draft_len = self.draft_len.saturating_add(bytes.len() as u64);
        Ok(())
    }

    fn sync_draft(&mut self) -> Result<(), FolderFault> {
        let Some(draft) = &self.draft else {
            return Err(FolderFault);
        };
        as_folder_result(draft.sync_all())
    }

    fn rename_draft(&mut self) -> Result<(), FolderFault> {
        let Some(draft) = self.draft.take() else {
            return Err(FolderFault);
        };
        as_folder_result(fs::rename(self.rt, self.draft_path.as_str(), self.path.as_str()))?;
        self.file = draft;
        self.len = self.draft_len;
        self.synced = self.draft_len;
        Ok(())
    }

    fn sync_folder(&mut self) -> Result<(), FolderFault> {
        as_folder_result(self.folder.sync_all())
    }
}
