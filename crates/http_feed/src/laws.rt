// Laws of the definitions that the contracts cite.
ghost use Rattle.std.specs.Prelude.{◌≡◌, ◌++◌, [], ◌∷◌, true, false, List, ℕ};
ghost use Rattle.http_wire.specs.declared.request.Request.{Request as TheRequest};
ghost use Rattle.http_wire.specs.declared.request.Asked.TheVariants.{Request as Requested};
ghost use Rattle.http_wire.specs.NextRequests.{RequestReaderState, fresh_request_reader};
ghost use Rattle.http_feed.specs.Feeds.{ReturnsItem, with_bytes};
ghost use Rattle.http_feed.specs.GivenBytes.{HasReadRequests};

/// A law: whatever the cuts, the requests that came of a feed so far are those with which all bytes
/// given begin, and the bytes held come after them. It is so of a new feed, and stays so with each
/// call.
pub fn requests_come_in_order()
    ensures begins { HasReadRequests [] [] fresh_request_reader }
    ensures more_given { (given bytes : List ℕ) (requests : List TheRequest)
        (feed : RequestReaderState) → HasReadRequests given requests feed
        → HasReadRequests (given ++ bytes) requests (with_bytes feed bytes) }
    ensures next_request { (given : List ℕ) (requests : List TheRequest) (request : TheRequest)
        (old new : RequestReaderState) → HasReadRequests given requests old
        → ReturnsItem false old (Requested request) new → request.closes ≡ false
        → HasReadRequests given (requests ++ request ∷ []) new }
{}
