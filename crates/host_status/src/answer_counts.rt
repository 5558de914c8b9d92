//! How many requests were answered (RFC 9110, section 15).

/// How many requests were answered, by the class of the status.
#[derive(Clone, Copy)]
pub struct AnswerCounts {
    pub successes: u64,
    pub redirections: u64,
    pub client_errors: u64,
    pub server_errors: u64,
}

impl AnswerCounts {
    // No request was answered.
    pub(crate) fn new() -> AnswerCounts {
        AnswerCounts {
            successes: 0,
            redirections: 0,
            client_errors: 0,
            server_errors: 0,
        }
    }

    // One more was answered, with this status.
    pub(crate) fn count(&mut self, status: u16) {
        match status {
            200..=299 => self.successes = self.successes.saturating_add(1),
            300..=399 => self.redirections = self.redirections.saturating_add(1),
            400..=499 => self.client_errors = self.client_errors.saturating_add(1),
            _ => self.server_errors = self.server_errors.saturating_add(1),
        }
    }
}
