//! A law of followers, the contract of a function that does nothing.
ghost use Rattle.std.specs.Prelude.{◌≡◌, ◌∷◌, ◌++◌, [], ℕ, List, Ok};
ghost use Rattle.client_follower.specs.Rounds.{RunsRound};
ghost use Rattle.client_follower.specs.FollowerStates.{FollowerState};
ghost use Rattle.client_follower.specs.declared.feed_rounds.Round.{Round};
ghost use Rattle.client_theorem.specs.FeedRequests.{HasFeed};
ghost use Rattle.store_core.specs.State.{State};
ghost use Rattle.xcap_io.specs.StreamStates.{StreamState};
ghost use Rattle.xcap_io.specs.Connections.{peer_traffic};
ghost use Rattle.xcap_io.specs.ConnectionHistories.{Traffic};
ghost use Rattle.xcap_laws.specs.Followers.{HoldsVersion, IsCurrentReplica, IsServedInState};

use client_theorem::requests_ask_for_feeds;
use doc_names::DocId;
use xcap_uri::{Root, printed_id_reads_back, roots_are_spelled_by_the_grammar};

/// A law: after a round that ended well a follower holds the document of the state that answered,
/// its tag and its tree, or nothing where there is no such document; whatever it held before,
/// nothing or any version that the document ever had. That state is the one in which the machine
/// answered on the round's last connection: the bytes given there begin with the machine's reply,
/// whatever follows it. Of the connection before it nothing is asked.
pub fn followers_converge(root: &Root, doc: &DocId)
    ensures holds_present { (n : State) (f f' : FollowerState) (old new : StreamState)
        (round : Round)
        (earlier : List Traffic) (last : Traffic) → f.root ≡ root.now → f.doc ≡ doc.now
        → HasFeed doc.now → HoldsVersion f.root n f.doc f.held → RunsRound f f' old new (Ok round)
        → peer_traffic new ≡ earlier ++ last ∷ [] → IsServedInState f.root n last
        → IsCurrentReplica n f.doc f'.held }
{
    let _text = root.text();
    printed_id_reads_back(root, doc);
    requests_ask_for_feeds(root, doc);
    roots_are_spelled_by_the_grammar();
}
