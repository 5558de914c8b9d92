//! Replies with a text that was found (RFC 4825, section 8.3).
ghost use Rattle.std.specs.Prelude.{◌≡◌};
ghost use Rattle.request_checks.specs.Methods.{reply_for_method};
ghost use Rattle.xcap_machine.specs.Answers.{found_reply};

use reply_text::{MediaType, Reply};
use request_checks::{Method, reply_for_method};
use xcap_io::Bytes;

/// The reply with a text that was found, or for HEAD the head of that reply. The tag is the
/// document's, if the text is of one. Does not allocate.
pub fn text_reply(
    tag: Option<u64>,
    media: MediaType,
    text: Bytes,
    method: Method,
    closes: bool,
) -> Reply
    ensures sends_as_asked { result ≡ reply_for_method method (found_reply tag media text closes) }
{
    let reply = Reply::with(200, tag, Some(media), text, closes);
    reply_for_method(method, reply)
}
