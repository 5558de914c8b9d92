// The document that a follower copies, as its server has it.
ghost use Rattle.std.specs.Prelude.{IfOk, chars, option_map};
ghost use Rattle.patch_apply.specs.Views.{replica_view};
ghost use Rattle.patch_laws.specs.Premises.{IsReplicaTree};
ghost use Rattle.patch_laws.specs.ReplayLaws.{HasReplicaTree};
ghost use Rattle.client_follower.specs.FetchedDocuments.{BringsVersion, FetchesDocument};
ghost use Rattle.client_follower.specs.FetchedDocuments.{TakesDocument};

use crate::follower_fault::FollowerFault;
use doc_names::{DocId, print_doc_id};
use patch_apply::ReplicaVersion;
use std::alloc::Global;
use tree_text::read_document;
use xcap_client::{ClientFault, Response, fetch};
use xcap_io::{Line, Peer};
use xcap_uri::Root;
use xml_names::MAX_LEVELS;

// The version of the document in a response.
fn read_version(alloc: Global, response: Response) -> Result<ReplicaVersion, FollowerFault>
    ensures brings_version { BringsVersion response result }
    ensures stays_sound { IfOk result (λ held. IsReplicaTree held.root) }
{
    let Response { tag, body, .. } = response;
    let Some(tag) = tag else {
        return Err(FollowerFault::BadTag);
    };
    let root = read_document(alloc, body.as_slice(), MAX_LEVELS)?;
    Ok(ReplicaVersion { tag, root })
}

// The version of the document by the result of a GET, or none where there is no document.
fn fetched_version(
    alloc: Global,
    given: Result<Response, ClientFault>,
) -> Result<Option<ReplicaVersion>, FollowerFault>
    ensures takes_document { TakesDocument given result }
    ensures stays_sound { IfOk result (λ held. HasReplicaTree (replica_view held)) }
{
    match given {
        Ok(response) => Ok(Some(read_version(alloc, response)?)),
        Err(ClientFault::Refused(404, _)) => Ok(None),
        Err(fault) => Err(FollowerFault::from(fault)),
    }
}

// Fetches the document: its version, or none where there is no document.
pub(crate) fn fetch_document<C: Peer>(
    alloc: Global,
    peer: &mut C,
    root: &Root,
    user: Option<&str>,
    doc: &DocId,
) -> Result<Option<ReplicaVersion>, FollowerFault>
    ensures fetches_document { FetchesDocument (record {
      root = root.now;
      user = option_map (λ name. chars name.now) user.entry;
      doc = doc.now;
    }) (C.state peer.old) (C.state peer.new) result }
    ensures stays_sound { IfOk result (λ held. HasReplicaTree (replica_view held)) }
{
    let path = print_doc_id(alloc, doc)?;
    let given = fetch(alloc, peer, root, user, path.as_str());
    fetched_version(alloc, given)
}
