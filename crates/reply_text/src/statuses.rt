//! The reason phrases of statuses (RFC 9110, section 15).
ghost use Rattle.std.specs.Prelude.{◌≡◌, ◌≤◌, length, IsTrue};
ghost use Rattle.reply_text.specs.Statuses.{is_status, reason};

/// The reason phrase of a status. Does not allocate.
#[tactic(auto, unfolding(crate::specs::Statuses::reason))]
pub fn reason(status: u16) -> &'static str
    requires { IsTrue (is_status status) }
    ensures expected_word { result.now ≡ reason status }
    ensures byte_limit { length result.now ≤ 22 }
{
    match status {
        200 => "OK",
        201 => "Created",
        304 => "Not Modified",
        400 => "Bad Request",
        403 => "Forbidden",
        404 => "Not Found",
        405 => "Method Not Allowed",
        409 => "Conflict",
        410 => "Gone",
        412 => "Precondition Failed",
        413 => "Content Too Large",
        415 => "Unsupported Media Type",
        500 => "Internal Server Error",
        501 => "Not Implemented",
        503 => "Service Unavailable",
        _ => "Insufficient Storage",
    }
}
