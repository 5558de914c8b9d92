// The options of `host`, and why words after it are refused.
ghost use Rattle.std.specs.Prelude.{◌≡◌, IfOk, string_bytes};
ghost use Rattle.xcap_app.specs.HostWords.{bad_word_message, host_message};

use std::alloc::{AllocError, Global};
use store_core::Limits;
use xml_names::Text;

const USAGE: &str =
    "usage: xcapd host ADDR ROOT [connections=N] [documents=N] [bytes=N] [home-documents=N] [home-bytes=N]\n";

/// The options of `host`.
#[derive(Clone, Copy)]
pub struct HostOptions {
    /// How many connections are open at once at most.
    pub connections: usize,
    /// How much the server stores at most, of all users and of one.
    pub limits: Limits,
}

/// Why the words after `host` spell no command.
#[derive(Drop)]
pub enum HostFault {
    /// There is no address, or no root.
    Missing,
    /// The first word that can't stand where it does.
    BadWord(Text),
}

// The message about a word.
fn bad_word_message(alloc: Global, word: &str) -> Result<String, AllocError>
    ensures ok { IfOk result (λ words. string_bytes words ≡ bad_word_message word.now) }
{
    let mut words = String::from_str(alloc, "host: bad word: ")?;
    words.push_str(word)?;
    words.push_str("\n")?;
    Ok(words)
}

impl HostFault {
    /// The message about it.
    ///
    /// # Errors
    /// `AllocError` when out of memory.
    #[tactic(auto, unfolding(crate::specs::HostWords::host_usage))]
    pub(crate) fn words(&self, alloc: Global) -> Result<String, AllocError>
        ensures ok { IfOk result (λ words. string_bytes words ≡ host_message self.now) }
    {
        match self {
            HostFault::Missing => String::from_str(alloc, USAGE),
            HostFault::BadWord(word) => bad_word_message(alloc, word.as_str()),
        }
    }
}
