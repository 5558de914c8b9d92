// Opens a folder.

use crate::StdFolder;
use crate::std_folder::open_file;
use std::alloc::AllocError;
use std::fs::{File, TryLockError};
use std::io::{ErrorKind, Read};
use std::{fs, io};

/// Why a folder wasn't opened.
#[derive(Debug, Drop)]
pub enum FolderOpenFault {
    /// A call on the system failed.
    Io(io::Error),
    /// Out of memory.
    NoMemory,
    /// Another process has the folder open.
    Busy,
}

impl From<io::Error> for FolderOpenFault {
    fn from(error: io::Error) -> FolderOpenFault {
        FolderOpenFault::Io(error)
    }
}

impl From<AllocError> for FolderOpenFault {
    fn from(_none: AllocError) -> FolderOpenFault {
        FolderOpenFault::NoMemory
    }
}

// Makes the folder, if it is missing.
fn make_folder(rt: &HostRuntime, name: &str) -> Result<(), FolderOpenFault> {
    match fs::create_dir(rt, name) {
        Err(fault) if fault.kind() != ErrorKind::AlreadyExists => Err(FolderOpenFault::Io(fault)),
        _ => Ok(()),
    }
}

// Locks the folder for this process, before anything else in it is opened.
fn lock_folder(rt: &HostRuntime, name: &str) -> Result<File, FolderOpenFault> {
    let lock = open_file(rt, format!(in rt.alloc(); "{name}/lock")?.as_str())?;
    match lock.try_lock() {
        Ok(()) => Ok(lock),
        Err(TryLockError::WouldBlock) => Err(FolderOpenFault::Busy),
        Err(TryLockError::Error(fault)) => Err(FolderOpenFault::Io(fault)),
    }
}

/// Opens a folder, which is made if it is missing, and returns the bytes of its file. The file and
/// the folder are synced first: what is read is on the disk.
pub fn open_folder<'a>(
    rt: &'a HostRuntime,
    name: &str,
) -> Result<(StdFolder<'a>, Vec<u8>), FolderOpenFault> {
    make_folder(rt, name)?;
    let lock = lock_folder(rt, name)?;
    let folder = File::open(rt, name)?;
    let path = format!(in rt.alloc(); "{name}/log")?;
    let draft_path = format!(in rt.alloc(); "{name}/log.new")?;
    let mut file = open_file(rt, path.as_str())?;
    file.sync_all()?;
    folder.sync_all()?;
    let mut bytes = Vec::new(rt.alloc());
    file.read_to_end(&mut bytes)?;
    let len = bytes.len() as u64;
    let folder = StdFolder {
        rt,
        path,
        draft_path,
        file,
        draft: None,
        folder,
        lock,
        len,
        synced: len,
        draft_len: 0,
    };
    Ok((folder, bytes))
}
