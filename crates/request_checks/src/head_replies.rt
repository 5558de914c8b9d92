//! The replies to GET and HEAD (RFC 9110, sections 9.3.1 and 9.3.2).
ghost use Rattle.std.specs.Prelude.{◌≡◌};
ghost use Rattle.request_checks.specs.Methods.{reply_for_method};

use crate::Method;
use reply_text::Reply;

/// The reply to GET, or for HEAD the head of that reply. Does not allocate.
pub fn reply_for_method(method: Method, reply: Reply) -> Reply
    ensures exact { result ≡ reply_for_method method reply }
{
    match method {
        Method::Head => reply.head_only(),
        Method::Get | Method::Put | Method::Delete | Method::Other => reply,
    }
}
