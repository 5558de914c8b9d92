// The read buffer for an old journal.
ghost use Rattle.std.specs.Prelude.{◌≡◌, ◌-◌, ◌<◌, ◌≤◌, [], length, drop, slice_range, IfOk};
ghost use Rattle.xcap_io.specs.StreamStates.{OnlyReads};
ghost use Rattle.edit_journal.specs.inner.ReadBuffer.{FillsReadBuffer, ReportsEnd, TakesRecord};

use crate::journal_restart::RestartFault;
use crate::limits::{MAX_JOURNAL_BYTES, MAX_RECORD_BYTES};
use crate::record_scan::{RecordScan, scan_record};
use http_wire::Request;
use std::alloc::{AllocError, Global};
use std::marker::Model;
use xcap_io::{Failed, Line, Source};

/// The result of reading more bytes.
#[derive(Clone, Copy, PartialEq, Eq)]
pub(crate) enum FillResult {
    /// More bytes were read.
    Some,
    /// The end of the input.
    End,
    /// A byte beyond the limit of an old journal.
    Beyond,
}

/// The bytes read and not used yet, with capacity for the longest record, and the number of bytes
/// read so far.
#[derive(Drop)]
pub(crate) struct ReadBuffer {
    buffer: Vec<u8>,
    start: usize,
    end: usize,
    taken: u64,
}

impl Model for ReadBuffer {
    ghost use Rattle.std.specs.Prelude.{◌≡◌, ◌≤◌, length, slice_range};
    ghost use Rattle.edit_journal.specs.inner.ReadBuffer.{ReadBufferState};
    ghost use Rattle.edit_journal.specs.declared.limits.TheConstants.{MAX_JOURNAL_BYTES};
    ghost use Rattle.edit_journal.specs.declared.limits.TheConstants.{MAX_RECORD_BYTES};

    ghost Value = { ReadBufferState };

    ghost view = { λ i. record {
      held = slice_range i.buffer.items i.start i.end;
      taken = i.taken;
    } };

    ghost invariant = { λ i.
        (i.start ≤ i.end) × (i.end ≤ MAX_RECORD_BYTES) × (length i.buffer.items ≡ MAX_RECORD_BYTES)
        × (i.taken ≤ MAX_JOURNAL_BYTES) };
}

// Moves a range of the buffer to its front.
fn move_to_front(buffer: &mut [u8], start: usize, end: usize)
    requires ordered { start ≤ end }
    requires inside { end ≤ length buffer.old }
    ensures moved_to_front { slice_range buffer.new 0 (end - start)
        ≡ slice_range buffer.old start end }
{
    if start > 0 {
        buffer.copy_within(start..end, 0);
    }
}

// Whether a source has ended, by reading one more byte.
fn has_ended<S: Source>(source: &mut S) -> Result<bool, Failed>
    ensures byte_or_end { ReportsEnd (S.state source.old).inward (S.state source.new).inward
        result }
    ensures only_reads { OnlyReads (S.state source.old) (S.state source.new) result }
{
    let mut byte = [0];
    Ok(source.read(&mut byte)? == 0)
}

impl ReadBuffer {
    /// An empty buffer.
    pub(crate) fn new(alloc: Global) -> Result<ReadBuffer, AllocError>
        ensures holds_no_bytes { IfOk result
            (λ read_buffer. read_buffer ≡ record { held = []; taken = 0 }) }
    {
        Ok(ReadBuffer {
            buffer: vec![in alloc; 0; MAX_RECORD_BYTES]?,
            start: 0,
            end: 0,
            taken: 0,
        })
    }

    fn bytes(&self) -> &[u8]
        ensures exact { result.now ≡ self.now.held }
    {
        &self.buffer[self.start..self.end]
    }

    // Removes the first `count` bytes.
    fn consume(&mut self, count: usize)
        requires { count ≤ length self.old.held }
        ensures exact { self.new ≡ record self.old { held = drop count self.old.held } }
    {
        self.start += count;
    }

    // Reads once, into all the space that is left, up to the limit of an old journal.
    fn read_more<S: Source>(&mut self, source: &mut S) -> Result<FillResult, Failed>
        requires room_left { length self.old.held < MAX_RECORD_BYTES }
        requires below_limit { self.old.taken < MAX_JOURNAL_BYTES }
        ensures reads_more { FillsReadBuffer self.old self.new (S.state source.old).inward
            (S.state source.new).inward result }
        ensures at_most_limit { self.new.taken ≤ MAX_JOURNAL_BYTES }
        ensures only_reads { OnlyReads (S.state source.old) (S.state source.new) result }
    {
        let held = self.end - self.start;
        move_to_front(&mut self.buffer, self.start, self.end);
        self.start = 0;
        self.end = held;
        let end = MAX_RECORD_BYTES.min(
            held + (MAX_JOURNAL_BYTES - self.taken).min(MAX_RECORD_BYTES as u64) as usize,
        );
        let count = source.read(&mut self.buffer[held..end])?;
        if count == 0 {
            return Ok(FillResult::End);
        }
        self.end += count;
        self.taken += count as u64;
        Ok(FillResult::Some)
    }

    /// Reads once, if the buffer has space for more.
    pub(crate) fn fill<S: Source>(&mut self, source: &mut S) -> Result<FillResult, Failed>
        requires { length self.old.held < MAX_RECORD_BYTES }
        ensures reads_more { FillsReadBuffer self.old self.new (S.state source.old).inward
            (S.state source.new).inward result }
        ensures at_most_limit { self.new.taken ≤ MAX_JOURNAL_BYTES }
        ensures only_reads { OnlyReads (S.state source.old) (S.state source.new) result }
    {
        if self.taken < MAX_JOURNAL_BYTES {
            return self.read_more(source);
        }
        Ok(if has_ended(source)? {
            FillResult::End
        } else {
            FillResult::Beyond
        })
    }

    /// Takes out the record at the front, if it is complete. `place` is the offset of the buffered
    /// bytes in the journal.
    pub(crate) fn next_record(
        &mut self,
        alloc: Global,
        place: u64,
    ) -> Result<Option<Request>, RestartFault>
        ensures takes_record { TakesRecord self.old self.new place result }
    {
        match scan_record(alloc, self.bytes())? {
            RecordScan::Whole(request, len) => {
                self.consume(len);
                Ok(Some(request))
            }
            RecordScan::Torn => Ok(None),
            RecordScan::Damaged => Err(RestartFault::Damaged(place)),
        }
    }
}
