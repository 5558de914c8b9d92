//! Following a document of a server (RFC 5874, section 3; RFC 5875, section 4.3).
ghost use Rattle.std.specs.Prelude.{◌≡◌, ◌↔◌, ℕ, IsTrue, IfOk};
ghost use Rattle.doc_names.specs.declared.doc_id.DocId.{DocId as TheDoc};
ghost use Rattle.xcap_uri.specs.declared.target.Mode.{Mode as TheMode};
ghost use Rattle.xcap_machine.specs.Answers.{reply_only};
ghost use Rattle.xcap_machine.specs.Requests.{IsAnswer};
ghost use Rattle.store_core.specs.Contents.{Represents};
ghost use Rattle.store_core.specs.ValidStates.{IsValidState};
ghost use Rattle.store_core.specs.State.{State};
ghost use Rattle.patch_apply.specs.Views.{IsWithinLevels, replica_view};
ghost use Rattle.patch_laws.specs.ReplayLaws.{HasReplicaTree};
ghost use Rattle.client_theorem.specs.FeedRequests.{AsksForFeed, HasFeed};
ghost use Rattle.client_theorem.specs.FollowResults.{FollowsFeed, HoldsOrNoMemory, TakesReply};
ghost use Rattle.client_theorem.specs.SubscriberVersions.{DropsGoneDocument, HoldsCurrentVersion};
ghost use Rattle.client_theorem.specs.inner.FeedRequests.{AsksForChanges};

use crate::follow_fault::FollowFault;
use crate::{feed_request, requests_ask_for_feeds};
use doc_names::DocId;
use edit_ops::Edit;
use http_serve::MachineReply;
use http_wire::Request;
use patch_apply::{Applied, Replica, ReplicaVersion, apply_notice, read_notice};
use reply_text::Reply;
use std::alloc::{AllocError, Global};
use xcap_machine::subscribers_hold_the_document;
use xcap_server::{Server, answer};
use xcap_uri::{Mode, Root, parse_numeral};
use xml_names::MAX_LEVELS;
use xml_tree::depth;

/// Whether a replica has at most `MAX_LEVELS` levels, as every document has. Does not allocate.
pub fn is_within_levels(replica: &Replica) -> bool
    ensures exact { IsTrue result ↔ IsWithinLevels (replica_view replica.now.held) }
{
    match &replica.held {
        None => true,
        Some(held) => depth(&held.root) <= MAX_LEVELS,
    }
}

// The request for the changes of a document since the replica's version.
fn request_since(
    alloc: Global,
    root: &Root,
    mode: Mode,
    doc: &DocId,
    held: &Option<ReplicaVersion>,
) -> Result<Request, FollowFault>
    requires has_feed { HasFeed doc.now }
    ensures asks_since { AsksForChanges root.now mode doc.now (replica_view held.now) result }
{
    let Some(held) = held else {
        return Err(FollowFault::Nothing);
    };
    if parse_numeral(held.tag.as_str().as_bytes()).is_none() {
        return Err(FollowFault::BadTag);
    }
    requests_ask_for_feeds(root, doc);
    let request = feed_request(alloc, root, mode, &held.tag, doc)?;
    Ok(request)
}

// Asks a server for a feed, which changes nothing.
fn ask_server(server: &mut Server, request: &Request) -> Result<MachineReply<Edit>, AllocError>
    ensures machine_feed { (mode : TheMode) (n : ℕ) (doc : TheDoc)
        → AsksForFeed server.old.root mode n doc request.now
        → IfOk result (λ answered. IsAnswer server.old.root server.old.content request.now
        (reply_only answered.reply)) × (server.new.content ≡ server.old.content) }
    ensures same_root { server.new.root ≡ server.old.root }
{
    server.store().represents_valid_state();
    answer(server, request)
}

// What a reply makes of a replica.
fn apply_reply(alloc: Global, replica: &mut Replica, reply: &Reply) -> Result<Applied, FollowFault>
    requires height_bounded { IsWithinLevels (replica_view replica.old.held) }
    ensures takes_reply { HoldsOrNoMemory (TakesReply replica.old.doc reply.now)
        (record {
          old = replica_view replica.old.held;
          result = result;
          new = replica_view replica.new.held;
        }) }
    ensures same_document { replica.new.doc ≡ replica.old.doc }
    ensures within_levels { IsWithinLevels (replica_view replica.new.held) }
    ensures stays_sound { HasReplicaTree (replica_view replica.old.held)
        → HasReplicaTree (replica_view replica.new.held) }
{
    if reply.status() != 200 {
        return Err(FollowFault::Status(reply.status()));
    }
    let notice = read_notice(alloc, reply.body())?;
    let applied = apply_notice(alloc, replica, &notice)?;
    Ok(applied)
}

// Requests the changes of a document from the server, and applies the reply to the replica.
fn request_and_apply(
    alloc: Global,
    server: &mut Server,
    doc: &DocId,
    mode: Mode,
    replica: &mut Replica,
) -> Result<Applied, FollowFault>
    requires has_feed { HasFeed doc.now }
    requires height_bounded { IsWithinLevels (replica_view replica.old.held) }
    ensures follows_machine { HoldsOrNoMemory
        (FollowsFeed
        (record {
          root = server.old.root;
          content = server.old.content;
          mode = mode;
          doc = doc.now;
        })
        replica.old.doc)
        (record {
          old = replica_view replica.old.held;
          result = result;
          new = replica_view replica.new.held;
        }) }
    ensures same_document { replica.new.doc ≡ replica.old.doc }
    ensures within_levels { IsWithinLevels (replica_view replica.new.held) }
    ensures stays_sound { HasReplicaTree (replica_view replica.old.held)
        → HasReplicaTree (replica_view replica.new.held) }
    ensures server_unchanged { (server.new.root ≡ server.old.root)
        × (server.new.content ≡ server.old.content) }
{
    let request = request_since(alloc, server.root(), mode, doc, &replica.held)?;
    let answered = ask_server(server, &request)?;
    apply_reply(alloc, replica, &answered.reply)
}

/// Follows a document of a server: asks it, as the document's user, for the changes of the
/// document since the replica's version, and applies the diff document of the reply to the
/// replica. Where the replica is a replica of that document, and has a version since which the
/// server has the changes, a mode that sends changes gives exactly the server's version, tag and
/// tree; where the document is gone, the replica is empty afterwards. The server is unchanged.
///
/// # Errors
/// The first of these that applies: `Nothing` where the replica is empty; `BadTag` where its tag
/// isn't a number from 1 to the greatest of 64 bits; `Status` where the server's reply isn't 200;
/// `Notice` where the body of the reply is no diff document; `Apply` where the diff document can't
/// be applied. `NoMemory` when out of memory. The replica is then as it was.
pub fn update_replica(
    alloc: Global,
    server: &mut Server,
    doc: &DocId,
    mode: Mode,
    replica: &mut Replica,
) -> Result<Applied, FollowFault>
    requires has_feed { HasFeed doc.now }
    requires height_bounded { IsWithinLevels (replica_view replica.old.held) }
    ensures follows_machine { HoldsOrNoMemory
        (FollowsFeed
        (record {
          root = server.old.root;
          content = server.old.content;
          mode = mode;
          doc = doc.now;
        })
        replica.old.doc)
        (record {
          old = replica_view replica.old.held;
          result = result;
          new = replica_view replica.new.held;
        }) }
    ensures holds_present { (m : State) → IsValidState m → Represents server.old.content m
        → replica.old.doc ≡ doc.now
        → HoldsCurrentVersion m mode doc.now
        (record {
          old = replica_view replica.old.held;
          result = result;
          new = replica_view replica.new.held;
        }) }
    ensures drops_gone { (m : State) → IsValidState m → Represents server.old.content m
        → replica.old.doc ≡ doc.now
        → DropsGoneDocument m doc.now
        (record {
          old = replica_view replica.old.held;
          result = result;
          new = replica_view replica.new.held;
        }) }
    ensures same_document { replica.new.doc ≡ replica.old.doc }
    ensures within_levels { IsWithinLevels (replica_view replica.new.held) }
    ensures stays_sound { HasReplicaTree (replica_view replica.old.held)
        → HasReplicaTree (replica_view replica.new.held) }
    ensures server_unchanged { (server.new.root ≡ server.old.root)
        × (server.new.content ≡ server.old.content) }
{
    let _last = server.store().last_number();
    let _text = server.root().text();
    requests_ask_for_feeds(server.root(), doc);
    subscribers_hold_the_document();
    request_and_apply(alloc, server, doc, mode, replica)
}
