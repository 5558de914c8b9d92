// A folder in memory, for tests: it fails as planned, and shows what a crash may leave.
ghost use Rattle.std.specs.Prelude.{◌≤◌};

use crate::{FolderCalls, FolderFault};
use std::alloc::{AllocError, Global};

/// Which calls fail. A write that fails has written a part of its bytes.
#[derive(Clone, Copy)]
pub enum FaultPlan {
    Never,
    /// The call of this number fails, counted from 0.
    At(u32),
    /// A file holds at most this many bytes, during this many first calls.
    Full(usize, u32),
}

/// A folder in memory.
#[derive(Drop)]
pub struct MemFolder {
    alloc: Global,
    synced: Vec<u8>,
    seen: Vec<u8>,
    tail: Vec<u8>,
    draft: Vec<u8>,
    renamed: Option<Vec<u8>>,
    plan: FaultPlan,
    calls: u32,
    syncs: u32,
}

impl MemFolder {
    /// A folder whose file has the bytes.
    pub fn new(alloc: Global, bytes: &[u8], plan: FaultPlan) -> Result<MemFolder, AllocError> {
        Ok(MemFolder {
            alloc,
            synced: bytes.to_vec(alloc)?,
            seen: bytes.to_vec(alloc)?,
            tail: Vec::new(alloc),
            draft: Vec::new(alloc),
            renamed: None,
            plan,
            calls: 0,
            syncs: 0,
        })
    }

    /// The bytes of the file that every crash leaves.
    pub fn synced_bytes(&self) -> &[u8] {
        &self.synced
    }

    /// The bytes of which a crash may leave any part after the synced ones, changed or not.
    pub fn tail(&self) -> &[u8] {
        &self.tail
    }

    /// The file that a crash may leave in place of this one.
    pub fn renamed_file(&self) -> Option<&Vec<u8>> {
        self.renamed.as_ref()
    }

    /// How many syncs of the file have succeeded.
    pub fn syncs(&self) -> u32 {
        self.syncs
    }

    // Counts a call, and returns whether it fails.
    fn is_failing_call(&mut self) -> bool {
        let now = self.calls;
        self.calls = self.calls.saturating_add(1);
        match self.plan {
            FaultPlan::At(call) => call == now,
            _ => false,
        }
    }

    // How many of the bytes fit after those that are there.
    fn free_len(&self, held: usize, more: usize) -> usize
        ensures { result ≤ more }
    {
        match self.plan {
            FaultPlan::Full(free_len, until) if self.calls <= until => {
                free_len.saturating_sub(held).min(more)
            }
            _ => more,
        }
    }

    // How many of the bytes this write writes.
    fn written_len(&mut self, held: usize, more: usize) -> usize
        ensures { result ≤ more }
    {
        if self.is_failing_call() {
            return more / 2;
        }
        self.free_len(held, more)
    }

    // The draft becomes the file.
    fn replace_file(&mut self, bytes: Vec<u8>) -> Result<(), AllocError> {
        self.seen = bytes.to_vec(self.alloc)?;
        self.synced = bytes;
        self.tail.clear();
        Ok(())
    }
}

fn all_or_fault<E: Drop>(
    written: Result<(), E>,
    written_len: usize,
    len: usize,
) -> Result<(), FolderFault> {
    match written {
        Ok(()) if written_len == len => Ok(()),
        _ => Err(FolderFault),
    }
}

impl FolderCalls for MemFolder {
    fn write(&mut self, bytes: &[u8]) -> Result<(), FolderFault> {
        let held = self.seen.len();
        let written_len = self.written_len(held, bytes.len());
        let _ = self.tail.extend_from_slice(&bytes[..written_len]);
        let written = self.seen.extend_from_slice(&bytes[..written_len]);
        all_or_fault(written, written_len, bytes.len())
    }

    fn sync(&mut self) -> Result<(), FolderFault> {
        if self.is_failing_call() {
            return Err(FolderFault);
        }
        self.syncs = self.syncs.saturating_add(1);
        match self.seen.to_vec(self.alloc) {
            Ok(bytes) => {
                self.synced = bytes;
                self.tail.clear();
                Ok(())
            }
            Err(_) => Err(FolderFault),
        }
    }

    fn cut(&mut self) -> Result<(), FolderFault> {
        if self.is_failing_call() {
            return Err(FolderFault);
        }
        self.seen.truncate(self.synced.len());
        Ok(())
    }

    fn begin_draft(&mut self) -> Result<[u8; 8], FolderFault> {
        if self.is_failing_call() {
            return Err(FolderFault);
        }
        self.draft.clear();
        Ok(u64::from(self.calls).to_be_bytes())
    }

    fn write_draft(&mut self, bytes: &[u8]) -> Result<(), FolderFault> {
        let held = self.draft.len();
        let written_len = self.written_len(held, bytes.len());
        let written = self.draft.extend_from_slice(&bytes[..written_len]);
        all_or_fault(written, written_len, bytes.len())
    }

    fn sync_draft(&mut self) -> Result<(), FolderFault> {
        if self.is_failing_call() {
            return Err(FolderFault);
        }
        Ok(())
    }

    fn rename_draft(&mut self) -> Result<(), FolderFault> {
        let is_failing_call = self.is_failing_call();
        match self.draft.to_vec(self.alloc) {
            Ok(bytes) if !is_failing_call => {
                self.renamed = Some(bytes);
                Ok(())
            }
            Ok(bytes) => {
                self.renamed = Some(bytes);
                Err(FolderFault)
            }
            Err(_) => Err(FolderFault),
        }
    }

    fn sync_folder(&mut self) -> Result<(), FolderFault> {
        if self.is_failing_call() {
            return Err(FolderFault);
        }
        let Some(bytes) = self.renamed.take() else {
            return Ok(());
        };
        match self.replace_file(bytes) {
            Ok(()) => Ok(()),
            Err(_) => Err(FolderFault),
        }
    }
}
