//! A law of requests for feeds, the contract of a function that does nothing.
ghost use Rattle.std.specs.Prelude.{◌≡◌, ℕ, List, Some};
ghost use Rattle.xcap_uri.specs.Shapes.{parse_tag};
ghost use Rattle.xcap_uri.specs.declared.target.Mode.{Mode};
ghost use Rattle.client_theorem.specs.FeedRequests.{AsksForFeed, HasFeed, feed_request};

use doc_names::DocId;
use xcap_uri::{Root, printed_id_reads_back};

/// A law: where a document has feeds and the tag is a numeral, the request asks to read the feed
/// of the document since the version with that tag, and its user is allowed to.
pub fn requests_ask_for_feeds(root: &Root, doc: &DocId)
    ensures asks_feed { (mode : Mode) (tag : List ℕ) (n : ℕ) → HasFeed doc.now
        → parse_tag tag ≡ Some n
        → AsksForFeed root.now mode n doc.now (feed_request root.now mode tag doc.now) }
{
    printed_id_reads_back(root, doc);
}
