// The parts of a snapshot.
use doc_names::DocId;
use std::alloc::AllocError;

/// What a snapshot has besides the documents.
#[derive(Drop)]
pub struct Start<'a> {
    /// How many documents there are.
    pub count: u64,
    /// The number that the next change gets.
    pub next: u64,
    /// The root of the server.
    pub root: &'a [u8],
}

/// A document with its etag and its text.
#[derive(Drop)]
pub struct DocumentPart<'a> {
    pub id: DocId,
    pub tag: u64,
    pub text: &'a [u8],
}

/// Why a part wasn't written or read.
#[derive(Clone, Copy, PartialEq, Eq)]
pub enum PartFault {
    /// The bytes are no such part.
    Damaged,
    /// The part would be longer than a log takes.
    TooLong,
    /// Out of memory.
    NoMemory,
}

impl From<AllocError> for PartFault {
    ghost use Rattle.std.specs.Prelude.{◌≡◌};
    ghost use Rattle.state_snapshots.specs.declared.parts.PartFault.{PartFault};

    ghost from_gives = { λ _ fault. fault ≡ PartFault.NoMemory };

    fn from(_error: AllocError) -> PartFault {
        PartFault::NoMemory
    }
}
