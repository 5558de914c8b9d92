// The trait of journals.
ghost use Rattle.std.specs.Prelude.{◌+◌, ◌<◌, ◌≤◌, ◌^◌, length};
ghost use Rattle.edit_journal.specs.Journals.{JournalState, AppendsPiece, TruncatesJournal};

use xcap_io::Failed;

/// Where bytes are stored, one piece after the other.
pub trait Journal {
    /// The state that contracts see.
    ghost state: { Self → JournalState };

    /// Appends the bytes. After `Failed` a prefix of them, perhaps empty, was appended.
    fn append(&mut self, bytes: &[u8]) -> Result<(), Failed>
        requires { length (state self.old).held + length bytes.now < 2 ^ 64 }
        ensures appends_bytes { AppendsPiece (state self.old) (state self.new) result bytes.now };

    /// Truncates to the first `len` bytes, after a fault of an earlier call. After `Failed` these
    /// are kept, and maybe more of what was there.
    fn cut(&mut self, len: u64) -> Result<(), Failed>
        requires has_faults { 0 < (state self.old).faults }
        requires within { len ≤ length (state self.old).held }
        ensures cuts_to_len { TruncatesJournal (state self.old) (state self.new) result len };
}
