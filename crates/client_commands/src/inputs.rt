// The input, read to its end.
ghost use Rattle.std.specs.Prelude.{◌≡◌, ◌+◌, ◌<◌, ◌^◌, length, take};
ghost use Rattle.xcap_io.specs.StreamStates.{OnlyReads};
ghost use Rattle.client_commands.specs.InputTexts.{ReadsText};
ghost use Rattle.client_commands.specs.inner.InputBuffers.{FillsBuffer};
ghost use Rattle.client_commands.specs.declared.inputs.InputFault.TheVariants as faults;

use std::alloc::{AllocError, Global};
use xcap_io::{Failed, Line, Source};

/// Why an input isn't read as a text.
#[derive(Clone, Copy, PartialEq, Eq)]
pub enum InputFault {
    /// A read failed, and the input's count of such faults rose.
    Failed,
    /// It has more bytes than `limit`; one byte past the limit was read.
    TooLong,
    /// Out of memory; nothing was read.
    NoMemory,
}

impl From<AllocError> for InputFault {
    ghost from_gives = { λ _ fault. fault ≡ faults.NoMemory };

    fn from(_error: AllocError) -> Self {
        InputFault::NoMemory
    }
}

impl From<Failed> for InputFault {
    ghost from_gives = { λ _ fault. fault ≡ faults.Failed };

    fn from(_failed: Failed) -> Self {
        InputFault::Failed
    }
}

// Reads until the buffer is full or the input ends, and returns the number of bytes that came.
fn fill<I: Source>(input: &mut I, buffer: &mut [u8]) -> Result<usize, Failed>
    ensures fills_front { FillsBuffer result buffer.new (I.state input.old).inward
        (I.state input.new).inward }
    ensures only_reads { OnlyReads (I.state input.old) (I.state input.new) result }
{
    let mut held = 0;
    'reading: while held < buffer.len() {
        let count = input.read(&mut buffer[held..])?;
        if count == 0 {
            return Ok(held);
        }
        held += count;
    }
    Ok(held)
}

// Reads into a buffer of `limit + 1` bytes, and returns the length of the text.
fn read_text_into<I: Source>(
    input: &mut I,
    buffer: &mut [u8],
    limit: usize,
) -> Result<usize, InputFault>
    requires { length buffer.old ≡ limit + 1 }
    ensures reads_text { ReadsText (λ n. take n buffer.new) limit result (I.state input.old)
        (I.state input.new) }
{
    let length = fill(input, buffer)?;
    if length > limit {
        return Err(InputFault::TooLong);
    }
    Ok(length)
}

/// Reads the input to its end: a text of at most `limit` bytes, which is less than the greatest
/// `usize`.
///
/// # Errors
/// `Failed` where a read failed; `TooLong` where more than `limit` bytes came; `NoMemory` when out
/// of memory.
pub fn read_text<I: Source>(
    alloc: Global,
    input: &mut I,
    limit: usize,
) -> Result<Vec<u8>, InputFault>
    requires { limit + 1 < 2 ^ 63 }
    ensures reads_text { ReadsText (λ text. text.items) limit result (I.state input.old)
        (I.state input.new) }
{
    let mut buffer = vec![in alloc; 0; limit + 1]?;
    let length = read_text_into(input, &mut buffer, limit)?;
    buffer.truncate(length);
    Ok(buffer)
}
