// Laws of the definitions that the contracts cite; each is the contract of a function that does
// nothing.
ghost use Rattle.std.specs.Prelude.{ℕ, List, Result, Err};
ghost use Rattle.xcap_io.specs.StreamStates.{StreamState};
ghost use Rattle.xcap_client.specs.declared.request.Ask.{Ask};
ghost use Rattle.xcap_client.specs.declared.response.Response.{Response};
ghost use Rattle.xcap_client.specs.declared.client_fault.ClientFault.{ClientFault};
ghost use Rattle.xcap_client.specs.declared.client_fault.ClientFault.TheVariants.{PeerFault};
ghost use Rattle.xcap_client.specs.Calls.{MakesCall};
ghost use Rattle.xcap_client.specs.Connections.{ConnectsOnce, PeerFailed};

/// A call begins at most one connection, hands over its request there and nothing else, and its
/// answer is the meaning of the bytes given there.
pub fn calls_make_one_connection()
    ensures one_at_most { (root : List ℕ) (ask : Ask) (old new : StreamState)
        (result : Result Response ClientFault)
        → MakesCall root ask old new result → ConnectsOnce root ask old new result }
{}

/// A call fails with `PeerFault` only where a count of the peer rose.
pub fn peer_faults_have_causes()
    ensures count_rises { (root : List ℕ) (ask : Ask) (old new : StreamState)
        → MakesCall root ask old new (Err PeerFault) → PeerFailed old new }
{}
