// The lines that commands write about responses.
ghost use Rattle.std.specs.Prelude.{◌≡◌, IfOk, string_bytes};
ghost use Rattle.client_commands.specs.OutputLines.{line_of_status, put_line, round_line};
ghost use Rattle.patch_apply.specs.Views.{replica_view};

use patch_apply::Replica;
use std::alloc::{AllocError, Global};
use xcap_client::Response;

// The status alone.
pub(crate) fn status_line(alloc: Global, status: u16) -> Result<String, AllocError>
    ensures ok { IfOk result (λ line. string_bytes line ≡ line_of_status status) }
{
    format!(in alloc; "{status}\n")
}

// The status, and the etag in quotes where there is one.
pub(crate) fn put_line(alloc: Global, response: &Response) -> Result<String, AllocError>
    ensures ok { IfOk result
        (λ line. string_bytes line ≡ put_line response.now.status response.now.tag) }
{
    let status = response.status;
    match &response.tag {
        Some(tag) => format!(in alloc; "{status} \"{}\"\n", tag.as_str()),
        None => status_line(alloc, status),
    }
}

// The replica's etag, or a dash.
pub(crate) fn tag_line(alloc: Global, replica: &Replica) -> Result<String, AllocError>
    ensures exact { IfOk result
        (λ line. string_bytes line ≡ round_line (replica_view replica.now.held)) }
{
    match &replica.held {
        Some(held) => format!(in alloc; "{}\n", held.tag.as_str()),
        None => String::from_str(alloc, "-\n"),
    }
}
