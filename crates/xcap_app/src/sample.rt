// The command `sample`: requests made on a server in memory, and their summary.
ghost use Rattle.std.specs.Prelude.{◌≡◌, IfOk, string_bytes};
ghost use Rattle.xcap_app.specs.SampleCommand.{RunsSample, MakesSample, summary_text};
ghost use Rattle.xcap_app.specs.declared.sample_summary.Summary.{Summary};

use crate::exit::Exit;
use crate::messages::print;
use crate::sample_run::run_sample;
use std::alloc::{AllocError, Global};
use xcap_io::{Line, Sink};

// The lines of the summary.
fn summary_lines(alloc: Global, requests: u32) -> Result<String, AllocError>
    ensures text_of_summary { IfOk result
        (λ text. (summary : Summary) × MakesSample requests summary
        × (string_bytes text ≡ summary_text summary)) }
{
    let summary = run_sample(alloc, requests)?;
    summary.text(alloc)
}

/// Makes the sample of this many requests, and writes its summary.
pub(crate) fn sample<O: Sink>(alloc: Global, requests: u32, output: &mut O) -> Exit
    ensures runs_sample { RunsSample requests result (O.state output.old) (O.state output.new) }
{
    match summary_lines(alloc, requests) {
        Ok(text) => print(output, text.as_str().as_bytes()),
        Err(AllocError) => Exit::OutOfMemory,
    }
}
