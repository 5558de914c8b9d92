// The calls on a folder. No contract says what a call does; its answer does.

/// A call failed.
#[derive(Clone, Copy, PartialEq, Eq)]
pub struct FolderFault;

/// The calls on a folder that holds a file, whose bytes were read and synced when it was opened,
/// and a draft, which can take the file's place.
pub trait FolderCalls {
    /// Writes all of the bytes after those that the file has.
    fn write(&mut self, bytes: &[u8]) -> Result<(), FolderFault>;

    /// Waits until all that was written to the file is on the disk.
    fn sync(&mut self) -> Result<(), FolderFault>;

    /// Truncates the file to what was on the disk after the last sync.
    fn cut(&mut self) -> Result<(), FolderFault>;

    /// Begins an empty draft in place of any other, and returns random bytes to mark it with.
    fn begin_draft(&mut self) -> Result<[u8; 8], FolderFault>;

    /// Writes all of the bytes after those that the draft has.
    fn write_draft(&mut self, bytes: &[u8]) -> Result<(), FolderFault>;

    /// Waits until the draft is on the disk.
    fn sync_draft(&mut self) -> Result<(), FolderFault>;

    /// Gives the draft the file's name: it is the file from then on.
    fn rename_draft(&mut self) -> Result<(), FolderFault>;

    /// Waits until the names in the folder are on the disk.
    fn sync_folder(&mut self) -> Result<(), FolderFault>;
}
