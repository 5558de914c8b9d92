// A follower of a document.
ghost use Rattle.std.specs.Prelude.{◌≡◌, OnErr, chars, option_map};
ghost use Rattle.patch_apply.specs.Views.{replica_view};
ghost use Rattle.client_follower.specs.Rounds.{AsksFeed, RefetchesDocument, RunsRound};
ghost use Rattle.client_follower.specs.inner.FollowerChanges.{KeepsFollowerUnlessDecided};
ghost use Rattle.client_follower.specs.Starts.{StartsFollower};

use crate::feed_paths::{feed_path, user_as_str};
use crate::feed_rounds::{Round, take_feed};
use crate::fetched_documents::fetch_document;
use crate::follower_fault::FollowerFault;
use doc_names::DocId;
use patch_apply::Replica;
use std::alloc::Global;
use std::marker::Model;
use xcap_client::{copy_user, fetch};
use xcap_io::{Line, Peer};
use xcap_uri::Root;
use xml_names::Text;

/// A follower of a document under a root, with its replica. Contracts see the root, the user who
/// asks, the document's name and the contents of the replica.
#[derive(Drop)]
pub struct Follower {
    alloc: Global,
    root: Root,
    user: Option<Text>,
    replica: Replica,
}

impl Model for Follower {
    ghost use Rattle.patch_apply.specs.Views.{replica_view};
    ghost use Rattle.patch_laws.specs.ReplayLaws.{HasReplicaTree};
    ghost use Rattle.client_follower.specs.FollowerStates.{FollowerState};
    ghost use Rattle.std.specs.Coded.{codes};
    ghost use Rattle.xml_tree.specs.inner.TreeCodes.{tree_code};
    ghost use Rattle.doc_names.specs.contracts.doc_id.DocId as d;

    ghost Value = { FollowerState };

    ghost coded = { Prim.hlevel (codes, tree_code, d.the_row.coded) };

    ghost view = { λ f. record {
      root = f.root;
      user = f.user;
      doc = f.replica.doc;
      held = replica_view f.replica.held;
    } };

    ghost invariant = { λ f. HasReplicaTree (replica_view f.replica.held) };
}

impl Follower {
    /// Fetches the document, on a connection of its own, and follows it from there on. Where the
    /// server replies 404, the new follower's replica is empty.
    ///
    /// # Errors
    /// The first of these that applies: `Client` where there is no response, or where its status
    /// is neither 2xx nor 404; `BadTag` where it has no etag; `BadText` where its body is no
    /// document of at most `MAX_LEVELS` levels. `NoMemory` when out of memory.
    pub fn start<C: Peer>(
        alloc: Global,
        peer: &mut C,
        root: &Root,
        user: Option<&str>,
        doc: &DocId,
    ) -> Result<Follower, FollowerFault>
        ensures starts_follower { StartsFollower (record {
          root = root.now;
          user = option_map (λ name. chars name.now) user.entry;
          doc = doc.now;
        }) (C.state peer.old) (C.state peer.new) result }
    {
        let kept_root = root.copy(alloc)?;
        let kept_user = copy_user(alloc, user)?;
        let kept_doc = doc.copy(alloc)?;
        let held = fetch_document(alloc, peer, root, user, doc)?;
        Ok(Follower {
            alloc,
            root: kept_root,
            user: kept_user,
            replica: Replica {
                doc: kept_doc,
                held,
            },
        })
    }

    /// The replica. Does not allocate.
    pub fn replica(&self) -> &Replica
        ensures same_doc { result.now.doc ≡ self.now.doc }
        ensures same_replica { replica_view result.now.held ≡ self.now.held }
    {
        &self.replica
    }

    // Asks for the changes since the replica's etag, if it has one. None where the document has to
    // be fetched.
    fn ask_feed<C: Peer>(&mut self, peer: &mut C) -> Result<Option<Round>, FollowerFault>
        ensures asks_feed { AsksFeed self.old self.new (C.state peer.old)
            (C.state peer.new) result }
        ensures unchanged_unless_reported { KeepsFollowerUnlessDecided self.old self.new result }
    {
        let Some(held) = &self.replica.held else {
            return Ok(None);
        };
        let path = feed_path(self.alloc, &held.tag, &self.replica.doc)?;
        let given = fetch(
            self.alloc,
            peer,
            &self.root,
            user_as_str(&self.user),
            path.as_str(),
        );
        take_feed(self.alloc, &mut self.replica, given)
    }

    // Fetches the document into the replica.
    fn refetch<C: Peer>(&mut self, peer: &mut C) -> Result<Round, FollowerFault>
        ensures refetches { RefetchesDocument self.old self.new (C.state peer.old)
            (C.state peer.new) result }
    {
        let user = user_as_str(&self.user);
        let held = fetch_document(self.alloc, peer, &self.root, user, &self.replica.doc)?;
        let round = match &held {
            Some(_) => Round::Refetched,
            None => Round::Removed,
        };
        self.replica.held = held;
        Ok(round)
    }

    /// Makes one round: asks the feed for all changes since the replica's etag, and applies the
    /// diff document. Where the replica is empty, the server replies 410, or the diff document
    /// doesn't have the changes, it fetches the document. Both requests have a connection of their
    /// own.
    ///
    /// # Errors
    /// The first of these that applies: `Client` where there is no response, or where its status
    /// is neither 2xx nor an accepted one, 410 from the feed and 404 from the document;
    /// `BadNotice` and `Apply` where the diff document is refused; `BadTag` and `BadText` as in
    /// `start`. `NoMemory` when out of memory. The follower is then as it was.
    pub fn round<C: Peer>(&mut self, peer: &mut C) -> Result<Round, FollowerFault>
        ensures follows_document { RunsRound self.old self.new (C.state peer.old)
            (C.state peer.new) result }
        ensures err_unchanged { OnErr result (self.new ≡ self.old) }
    {
        match self.ask_feed(peer)? {
            Some(round) => Ok(round),
            None => self.refetch(peer),
        }
    }
}
