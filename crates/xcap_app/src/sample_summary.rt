//! The summary of a sample.
ghost use Rattle.std.specs.Prelude.{◌≡◌, IfOk, string_bytes};
ghost use Rattle.xcap_app.specs.SampleCommand.{reply_lines_text, document_lines_text, summary_text};

use std::alloc::{AllocError, Global};

/// The results of a sample's requests, and the contents of the store afterwards.
#[derive(Clone, Copy, PartialEq, Eq)]
pub struct Summary {
    /// The number of requests.
    pub requests: u64,
    /// The number of requests with the status 201, which created what they put.
    pub created: u64,
    /// The number of requests with the status 200, which replaced or deleted something.
    pub changed: u64,
    /// The number of all other requests.
    pub refused: u64,
    /// The number of documents stored afterwards.
    pub documents: u64,
    /// The length of these documents, printed, in bytes.
    pub bytes: u64,
    /// The last number that was given to a change.
    pub last: u64,
}

impl Summary {
    // The lines about the replies.
    #[tactic(auto, unfolding(crate::specs::SampleCommand::reply_lines_text))]
    fn reply_lines(&self, alloc: Global) -> Result<String, AllocError>
        ensures ok { IfOk result (λ text. string_bytes text ≡ reply_lines_text self.now) }
    {
        format!(in alloc;
            "requests {}\ncreated {}\nchanged {}\nrefused {}\n",
            self.requests, self.created, self.changed, self.refused
        )
    }

    // The lines about the stored documents.
    #[tactic(auto, unfolding(crate::specs::SampleCommand::document_lines_text))]
    fn document_lines(&self, alloc: Global) -> Result<String, AllocError>
        ensures ok { IfOk result (λ text. string_bytes text ≡ document_lines_text self.now) }
    {
        format!(in alloc;
            "documents {}\nbytes {}\nlast {}\n",
            self.documents, self.bytes, self.last
        )
    }

    /// The summary as seven lines, each a word, a space and a number.
    ///
    /// # Errors
    /// `AllocError` when out of memory.
    pub fn text(&self, alloc: Global) -> Result<String, AllocError>
        ensures ok { IfOk result (λ text. string_bytes text ≡ summary_text self.now) }
    {
        let mut text = self.reply_lines(alloc)?;
        let document_lines = self.document_lines(alloc)?;
        text.push_str(document_lines.as_str())?;
        Ok(text)
    }
}
