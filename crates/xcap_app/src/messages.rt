// Writing the output, and the messages on the stream for errors.
ghost use Rattle.xcap_app.specs.Exits.{words_of};
ghost use Rattle.xcap_app.specs.ErrorMessages.{IsReportedAs, WritesMessage};
ghost use Rattle.xcap_app.specs.inner.CommandOutputs.{PrintsOutput};

use crate::exit::Exit;
use std::alloc::{AllocError, Global};
use xcap_io::{Failed, Sink, write_all};

/// How a command ends that wrote its output.
pub(crate) fn print<O: Sink>(output: &mut O, bytes: &[u8]) -> Exit
    ensures prints_bytes { PrintsOutput bytes.now result (O.state output.old) (O.state output.new) }
{
    match write_all(output, bytes) {
        Ok(()) => Exit::Done,
        Err(Failed) => Exit::OutputFailed,
    }
}

/// Writes the message. A failure of the stream changes nothing else, so it isn't returned.
pub(crate) fn write_message<E: Sink>(errors: &mut E, words: &[u8])
    ensures writes_words { WritesMessage words.now (E.state errors.old) (E.state errors.new) }
{
    let _ = write_all(errors, words);
}

/// Writes the message of how a run ends, and returns it. When out of memory for the message of a
/// refusal, the run ends with `OutOfMemory`.
pub(crate) fn report_exit<E: Sink>(alloc: Global, errors: &mut E, exit: Exit) -> Exit
    ensures exit_reported { IsReportedAs exit result }
    ensures writes_words { WritesMessage (words_of result) (E.state errors.old)
        (E.state errors.new) }
{
    match exit.words(alloc) {
        Ok(words) => {
            write_message(errors, words.as_slice());
            exit
        }
        Err(AllocError) => {
            // Dropped by a call, whose proof is made once, rather than at each exit.
            drop(exit);
            write_message(errors, b"out of memory\n");
            Exit::OutOfMemory
        }
    }
}
