// How a run ends: its status, and its message on the stream for errors.
ghost use Rattle.std.specs.Prelude.{◌≡◌, IfOk, OnErr};
ghost use Rattle.xcap_app.specs.Exits.{HasAllocatedMessage, status_of, words_of};
ghost use Rattle.xcap_app.specs.inner.MessageBytes.{message_bytes};

use crate::host_options::HostFault;
use crate::journal_refusal::JournalRefusal;
use crate::refusal::Refusal;
use client_follower::FollowerFault;
use std::alloc::{AllocError, Global};

/// How a run of the program ends.
#[derive(Drop)]
pub enum Exit {
    /// The command ended.
    Done,
    /// The words spell no command.
    Usage,
    /// The words after `host` spell no command.
    BadHostWords(HostFault),
    /// A read of the input failed.
    InputFailed,
    /// A write to the output failed.
    OutputFailed,
    /// The port didn't listen, or the next connection didn't begin.
    NetworkFailed,
    /// The input of `check` is no valid document, or that of `put` is too large for one.
    Refused(Refusal),
    /// The input of `keep` is no journal from which a server can restart.
    BadJournal(JournalRefusal),
    /// A call of the client failed: its peer failed, or refused, or sent an unusable response.
    Client(FollowerFault),
    /// Out of memory before the first request, or in a command that serves none.
    OutOfMemory,
}

/// The message on the stream for errors.
#[derive(Drop)]
pub(crate) enum Message {
    Fixed(&'static [u8]),
    Made(String),
}

impl Message {
    pub(crate) fn as_slice(&self) -> &[u8]
        ensures exact { result.now ≡ message_bytes self.now }
    {
        match self {
            Message::Fixed(words) => words,
            Message::Made(words) => words.as_bytes(),
        }
    }
}

const USAGE: &[u8] =
    b"usage: xcapd replay ROOT | serve ADDR ROOT COUNT | keep ADDR ROOT COUNT | check AUID | sample N | fetch USER ROOT PATH | put USER ROOT PATH TYPE | delete USER ROOT PATH | follow USER ROOT DOCUMENT ROUNDS\n";

impl Exit {
    /// The status that the program exits with.
    pub fn status(&self) -> u8
        ensures exact { result ≡ status_of self.now }
    {
        match self {
            Exit::Done => 0,
            Exit::Usage => 2,
            Exit::BadHostWords(_) => 2,
            Exit::InputFailed => 3,
            Exit::OutputFailed => 4,
            Exit::NetworkFailed => 5,
            Exit::Refused(_) => 6,
            Exit::Client(fault) => client_commands::status_of(fault),
            Exit::BadJournal(_) => 6,
            Exit::OutOfMemory => 7,
        }
    }

    /// The message on the stream for errors.
    ///
    /// # Errors
    /// `AllocError` when out of memory; only the messages of a refusal, of a call that failed and of
    /// words after `host` allocate.
    #[tactic(auto, unfolding(crate::specs::Exits::usage_line))]
    pub(crate) fn words(&self, alloc: Global) -> Result<Message, AllocError>
        ensures ok { IfOk result (λ words. message_bytes words ≡ words_of self.now) }
        ensures err_is_refusal { OnErr result (HasAllocatedMessage self.now) }
    {
        match self {
            Exit::Done => Ok(Message::Fixed(b"")),
            Exit::Usage => Ok(Message::Fixed(USAGE)),
            Exit::BadHostWords(fault) => Ok(Message::Made(fault.words(alloc)?)),
            Exit::InputFailed => Ok(Message::Fixed(b"input failed\n")),
            Exit::OutputFailed => Ok(Message::Fixed(b"output failed\n")),
            Exit::NetworkFailed => Ok(Message::Fixed(b"network failed\n")),
            Exit::Refused(refusal) => Ok(Message::Made(refusal.words(alloc)?)),
            Exit::Client(fault) => Ok(Message::Made(client_commands::words_of(alloc, fault)?)),
            Exit::BadJournal(refusal) => Ok(Message::Made(refusal.words(alloc)?)),
            Exit::OutOfMemory => Ok(Message::Fixed(b"out of memory\n")),
        }
    }
}
