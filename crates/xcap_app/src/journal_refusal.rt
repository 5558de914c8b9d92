// Why an old journal is refused.
ghost use Rattle.std.specs.Prelude.{◌≡◌, IfOk, string_bytes};
ghost use Rattle.xcap_app.specs.Exits.{journal_message};

use std::alloc::{AllocError, Global};

/// Why the input of `keep` is no journal from which a server can restart.
#[derive(Clone, Copy, PartialEq, Eq)]
pub enum JournalRefusal {
    /// Its bytes from this place on begin no record.
    Damaged(u64),
    /// The request of this record, counted from 1, makes no change after those before it.
    Refused(u64),
    /// It has more than `MAX_JOURNAL_BYTES` bytes.
    TooLong,
}

impl JournalRefusal {
    /// The message about it.
    ///
    /// # Errors
    /// `AllocError` when out of memory.
    pub(crate) fn words(&self, alloc: Global) -> Result<String, AllocError>
        ensures ok { IfOk result (λ words. string_bytes words ≡ journal_message self.now) }
    {
        match self {
            JournalRefusal::Damaged(place) => format!(in alloc; "journal: damaged {place}\n"),
            JournalRefusal::Refused(number) => format!(in alloc; "journal: refused {number}\n"),
            JournalRefusal::TooLong => String::from_str(alloc, "journal: too-long\n"),
        }
    }
}
