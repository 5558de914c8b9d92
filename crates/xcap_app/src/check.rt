// The command `check`: the input as a document of a usage.
ghost use Rattle.xcap_app.specs.CheckCommand.{ChecksCommand, ExaminesInput};

use crate::check_verdict::judge_text;
use crate::exit::Exit;
use crate::messages::print;
use crate::refusal::Refusal;
use client_commands::{InputFault, read_text};
use doc_names::Usage;
use std::alloc::Global;
use store_core::MAX_DOCUMENT_BYTES;
use xcap_io::{Line, Sink, Source};

// Reads the input as a document, and returns the verdict.
fn examine_input<I: Source>(alloc: Global, usage: Usage, input: &mut I) -> Exit
    ensures examines_input { ExaminesInput usage result (I.state input.old) (I.state input.new) }
{
    match read_text(alloc, input, MAX_DOCUMENT_BYTES) {
        Ok(text) => judge_text(alloc, usage, &text),
        Err(InputFault::Failed) => Exit::InputFailed,
        Err(InputFault::TooLong) => Exit::Refused(Refusal::TooLarge),
        Err(InputFault::NoMemory) => Exit::OutOfMemory,
    }
}

/// Reads the input as a document of the usage, and writes that it is valid; or ends with the
/// reason why it isn't, tested in the order of `Refusal`.
pub(crate) fn check<I: Source, O: Sink>(
    alloc: Global,
    usage: Usage,
    input: &mut I,
    output: &mut O,
) -> Exit
    ensures checks_input { ChecksCommand usage result
        (record { input = I.state input.old; output = O.state output.old })
        (record { input = I.state input.new; output = O.state output.new }) }
{
    match examine_input(alloc, usage, input) {
        Exit::Done => print(output, b"valid\n"),
        exit => exit,
    }
}
