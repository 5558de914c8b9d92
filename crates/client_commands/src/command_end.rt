// How a command of the client ends.
ghost use Rattle.client_commands.specs.inner.OutputEnds.{WritesOutput};

use client_follower::FollowerFault;
use xcap_io::{Failed, Line, Sink, write_all};

/// How a command of the client ends.
#[derive(Drop)]
pub enum CommandEnd {
    /// Its output was written.
    Done,
    /// A read of the input failed.
    InputFailed,
    /// A write to the output failed.
    OutputFailed,
    /// The input has more bytes than the body of a request may have.
    TooLarge,
    /// A call of the client failed.
    Failed(FollowerFault),
    /// Out of memory for the input or the output.
    OutOfMemory,
}

// Writes the output of a command, or the last part of it.
pub(crate) fn write_output<O: Sink>(output: &mut O, bytes: &[u8]) -> CommandEnd
    ensures writes_bytes { WritesOutput bytes.now result (O.state output.old) (O.state output.new) }
{
    match write_all(output, bytes) {
        Ok(()) => CommandEnd::Done,
        Err(Failed) => CommandEnd::OutputFailed,
    }
}
