//! Laws of connections, each the contract of a function that does nothing.
ghost use Rattle.std.specs.Prelude.{ℕ, List, Result};
ghost use Rattle.xcap_io.specs.StreamStates.{StreamState};
ghost use Rattle.xcap_client.specs.declared.request.Ask.{Ask};
ghost use Rattle.xcap_client.specs.declared.response.Response.{Response};
ghost use Rattle.xcap_client.specs.declared.client_fault.ClientFault.{ClientFault};
ghost use Rattle.xcap_client.specs.Calls.{MakesCall};
ghost use Rattle.client_follower.specs.Rounds.{RunsRound};
ghost use Rattle.client_follower.specs.Starts.{StartsFollower};
ghost use Rattle.client_follower.specs.FollowerStates.{FollowedDocument, FollowerState};
ghost use Rattle.client_follower.specs.declared.follower_fault.FollowerFault.{FollowerFault};
ghost use Rattle.client_follower.specs.declared.feed_rounds.Round.{Round};
ghost use Rattle.client_follower.specs.ConnectionCounts.{CallBeginsConnections};
ghost use Rattle.client_follower.specs.ConnectionCounts.{RoundBeginsConnections};
ghost use Rattle.client_follower.specs.ConnectionCounts.{StartBeginsConnections};

/// A call to fetch, put or remove begins exactly one connection, at the root's address; none only
/// where it was out of memory or the peer failed.
pub fn calls_begin_one_connection()
    ensures one_connection { (root : List ℕ) (ask : Ask) (old new : StreamState)
        (result : Result Response ClientFault)
        → MakesCall root ask old new result → CallBeginsConnections root old new result }
{}

/// The start of a follower begins at most one connection, at the root's address, and exactly one
/// where it succeeded.
pub fn starts_begin_one_connection()
    ensures one_connection { (document : FollowedDocument) (old new : StreamState)
        (result : Result FollowerState FollowerFault) → StartsFollower document old new result
        → StartBeginsConnections document.root old new result }
{}

/// A round of a follower begins at most two connections, and at least one where it succeeded.
pub fn rounds_begin_at_most_two_connections()
    ensures two_at_most { (f f' : FollowerState) (old new : StreamState)
        (result : Result Round FollowerFault)
        → RunsRound f f' old new result → RoundBeginsConnections f.root old new result }
{}
