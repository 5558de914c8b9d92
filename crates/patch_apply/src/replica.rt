//! A replica of a document, as a subscriber has it.
ghost use Rattle.std.specs.Prelude.{◌≡◌, IfOk};

use doc_names::DocId;
use std::alloc::{AllocError, Global};
use xml_names::Text;
use xml_tree::{Element, copy_tree};

/// A version of a document: its tag, and its tree.
#[derive(Drop)]
pub struct ReplicaVersion {
    pub tag: Text,
    pub root: Element,
}

/// A replica of a document, which may be empty.
#[derive(Drop)]
pub struct Replica {
    pub doc: DocId,
    pub held: Option<ReplicaVersion>,
}

/// The outcome of a diff document.
#[derive(Drop, PartialEq, Eq)]
pub enum Applied {
    /// It has no `document`.
    Same,
    /// The replica is the version after the last change.
    Patched,
    /// The document is gone, and the replica is empty.
    Removed,
    /// The document changed to this tag, and the diff document doesn't say how. The replica is as
    /// it was.
    Fetch(Text),
}

// A copy of a replica's version.
pub(crate) fn copy_replica_version(
    alloc: Global,
    held: &Option<ReplicaVersion>,
) -> Result<Option<ReplicaVersion>, AllocError>
    ensures equal_copy { IfOk result (λ made. made ≡ held.now) }
{
    match held {
        None => Ok(None),
        Some(held) => {
            let tag = held.tag.copy(alloc)?;
            let root = copy_tree(alloc, &held.root)?;
            Ok(Some(ReplicaVersion { tag, root }))
        }
    }
}
