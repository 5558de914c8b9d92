//! Replies with a diff document.
ghost use Rattle.std.specs.Prelude.{◌≡◌, None};
ghost use Rattle.reply_text.specs.declared.media_types.MediaType.TheVariants as medias;
ghost use Rattle.request_checks.specs.Methods.{reply_for_method};
ghost use Rattle.xcap_machine.specs.Answers.{found_reply};

use reply_text::{MediaType, Reply};
use request_checks::{Method, reply_for_method};
use xcap_io::Bytes;

// The reply with a diff document, or for HEAD the head of that reply. It has no tag.
pub(crate) fn notice_reply(notice: Bytes, method: Method, closes: bool) -> Reply
    ensures exact { result ≡ reply_for_method method (found_reply None medias.Diff notice closes) }
{
    let reply = Reply::with(200, None, Some(MediaType::Diff), notice, closes);
    reply_for_method(method, reply)
}
