// The feed of a document's changes, and what a follower does with it.
ghost use Rattle.std.specs.Prelude.{◌≡◌};
ghost use Rattle.patch_apply.specs.Views.{replica_view};
ghost use Rattle.patch_laws.specs.ReplayLaws.{HasReplicaTree};
ghost use Rattle.client_follower.specs.FeedResults.{TakesFeed, TakesNotice, round_outcome};
ghost use Rattle.client_follower.specs.inner.ReplicaChanges.{KeepsReplicaUnlessDecided};

use crate::follower_fault::FollowerFault;
use patch_apply::{Applied, ApplyFault, Replica, apply_notice, read_notice};
use std::alloc::Global;
use xcap_client::{ClientFault, Response};
use xml_names::ReadError;

/// The outcome of a round.
#[derive(Clone, Copy, Drop, PartialEq, Eq)]
pub enum Round {
    /// The replica is the current version.
    Same,
    /// The changes led the replica to the current version.
    Patched,
    /// The document was fetched.
    Refetched,
    /// The document is gone, and the replica is empty.
    Removed,
}

// The outcome of a round by a diff document that was applied: None where the document has to be
// fetched.
fn round_outcome(
    applied: Result<Applied, ReadError<ApplyFault>>,
) -> Result<Option<Round>, FollowerFault>
    ensures exact { result ≡ round_outcome applied }
{
    match applied {
        Ok(Applied::Same) => Ok(Some(Round::Same)),
        Ok(Applied::Patched) => Ok(Some(Round::Patched)),
        Ok(Applied::Removed) => Ok(Some(Round::Removed)),
        Ok(Applied::Fetch(_)) => Ok(None),
        Err(error) => Err(FollowerFault::from(error)),
    }
}

// Reads the body of a feed's response as a diff document, and applies it.
fn take_notice(
    alloc: Global,
    replica: &mut Replica,
    body: &[u8],
) -> Result<Option<Round>, FollowerFault>
    requires is_sound { HasReplicaTree (replica_view replica.old.held) }
    ensures same_document { replica.new.doc ≡ replica.old.doc }
    ensures takes_diff { TakesNotice replica.old.doc body.now (replica_view replica.old.held)
        (replica_view replica.new.held) result }
    ensures stays_sound { HasReplicaTree (replica_view replica.new.held) }
{
    let notice = read_notice(alloc, body)?;
    round_outcome(apply_notice(alloc, replica, &notice))
}

// Handles the result of a GET of the feed. None where the document has to be fetched: the server
// no longer knows the etag, or the diff document doesn't have the changes.
pub(crate) fn take_feed(
    alloc: Global,
    replica: &mut Replica,
    given: Result<Response, ClientFault>,
) -> Result<Option<Round>, FollowerFault>
    requires is_sound { HasReplicaTree (replica_view replica.old.held) }
    ensures same_document { replica.new.doc ≡ replica.old.doc }
    ensures takes_feed { TakesFeed replica.old.doc given (replica_view replica.old.held)
        (replica_view replica.new.held) result }
    ensures unchanged_unless_reported { KeepsReplicaUnlessDecided (replica_view replica.old.held)
        (replica_view replica.new.held) result }
    ensures stays_sound { HasReplicaTree (replica_view replica.new.held) }
{
    match given {
        Ok(response) => take_notice(alloc, replica, response.body.as_slice()),
        Err(ClientFault::Refused(410, _)) => Ok(None),
        Err(fault) => Err(FollowerFault::from(fault)),
    }
}
