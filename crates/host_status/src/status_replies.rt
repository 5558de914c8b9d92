// The reply to a request for the status.
ghost use Rattle.std.specs.Prelude.{◌≡◌, None, IfOk};
ghost use Rattle.reply_text.specs.declared.media_types.MediaType.TheVariants as medias;
ghost use Rattle.request_checks.specs.Methods.{method_of, reply_for_method};
ghost use Rattle.xcap_machine.specs.Answers.{found_reply};
ghost use Rattle.host_status.specs.HostSteps.{status_reply};

use crate::answer_counts::AnswerCounts;
use crate::status_texts::write_status_text;
use http_wire::Request;
use reply_text::{MediaType, Reply};
use request_checks::{Method, reply_for_method};
use std::alloc::{AllocError, Global};
use xcap_io::Bytes;
use xcap_server::Server;

// The reply with this text, or for HEAD its head. Does not allocate.
fn text_reply(text: Bytes, request: &Request) -> Reply
    ensures exact { result ≡ reply_for_method (method_of request.now.method)
        (found_reply None medias.PlainText text request.now.closes) }
{
    let reply = Reply::with(200, None, Some(MediaType::PlainText), text, request.closes);
    reply_for_method(Method::of(request), reply)
}

/// The reply to a request for the status of this server, which answered so many requests.
///
/// # Errors
/// `AllocError` when out of memory.
pub(crate) fn status_reply(
    alloc: Global,
    server: &Server,
    counts: &AnswerCounts,
    request: &Request,
) -> Result<Reply, AllocError>
    ensures ok { IfOk result
        (λ reply. reply ≡ status_reply server.now.content counts.now request.now) }
{
    let text = write_status_text(alloc, server.store(), counts)?;
    Ok(text_reply(text, request))
}
