// The read buffer of a connection, and the request reader around it.
ghost use Rattle.std.specs.Prelude.{◌≡◌, ◌+◌, ◌-◌, ◌<◌, ◌≤◌, ◌↔◌, [], length, drop, take};
ghost use Rattle.std.specs.Prelude.{slice_range, IfOk, OnErr, IsTrue};
ghost use Rattle.xcap_io.specs.StreamStates.{OnlyReads};
ghost use Rattle.http_wire.specs.NextRequests.{RequestReaderState, fresh_request_reader};
ghost use Rattle.http_wire.specs.inner.ReadBuffer.{BuffersMore, BuffersMoreOrEnds};
ghost use Rattle.http_wire.specs.inner.ReadBuffer.{BuffersEnoughOrEnds};

use crate::chunk_decoder::Decoder;
use crate::limits::MAX_HELD_BYTES;
use std::alloc::{AllocError, Global};
use std::marker::Model;
use xcap_io::{Failed, Line, Source};

/// A read of the source failed, and its counter of read faults rose.
#[derive(Clone, Copy, PartialEq, Eq)]
pub struct ReadFault;

// The bytes read and not used yet: a range of a buffer with capacity for a head and a body.
#[derive(Drop)]
pub struct ReadBuffer {
    buffer: Vec<u8>,
    start: usize,
    end: usize,
}

impl Model for ReadBuffer {
    ghost use Rattle.std.specs.Prelude.{◌≡◌, ◌≤◌, ℕ, List, length, slice_range};
    ghost use Rattle.http_wire.specs.declared.limits.TheConstants.{MAX_HELD_BYTES};

    ghost Value = { List ℕ };

    ghost view = { λ i. slice_range i.buffer.items i.start i.end };

    ghost invariant = { λ i.
        (i.start ≤ i.end) × (i.end ≤ MAX_HELD_BYTES) × (length i.buffer.items ≡ MAX_HELD_BYTES) };
}

// Moves a range of the buffer to its front.
fn move_to_front(buffer: &mut [u8], start: usize, end: usize)
    requires ordered { start ≤ end }
    requires inside { end ≤ length buffer.old }
    ensures moved_to_front { slice_range buffer.new 0 (end - start)
        ≡ slice_range buffer.old start end }
{
    if start > 0 {
        buffer.copy_within(start..end, 0);
    }
}

impl ReadBuffer {
    pub fn new(alloc: Global) -> Result<ReadBuffer, AllocError>
        ensures holds_no_bytes { IfOk result (λ read_buffer. read_buffer ≡ []) }
    {
        Ok(ReadBuffer {
            buffer: vec![in alloc; 0; MAX_HELD_BYTES]?,
            start: 0,
            end: 0,
        })
    }

    pub fn bytes(&self) -> &[u8]
        ensures exact { result.now ≡ self.now }
        ensures at_most_limit { length self.now ≤ MAX_HELD_BYTES }
    {
        &self.buffer[self.start..self.end]
    }

    pub fn len(&self) -> usize
        ensures exact { result ≡ length self.now }
        ensures at_most_limit { length self.now ≤ MAX_HELD_BYTES }
    {
        self.end - self.start
    }

    pub fn is_empty(&self) -> bool
        ensures exact { IsTrue result ↔ (self.now ≡ []) }
    {
        self.start == self.end
    }

    // Keeps only the first `count` bytes.
    pub fn truncate(&mut self, count: usize)
        requires { count ≤ length self.old }
        ensures cuts_to_len { self.new ≡ take count self.old }
    {
        self.end = self.start + count;
    }

    // Removes the first `count` bytes without moving the others.
    pub fn consume(&mut self, count: usize)
        requires { count ≤ length self.old }
        ensures exact { self.new ≡ drop count self.old }
    {
        self.start += count;
    }

    // Reads once, into all the space that is left. False at the end of the source. A read happens
    // only if no item is complete in the buffered bytes, and the first read for an item moves them
    // to the front: so no byte is moved twice.
    pub fn fill<S: Source>(&mut self, source: &mut S) -> Result<bool, ReadFault>
        requires { length self.old < MAX_HELD_BYTES }
        ensures gains_source_bytes { BuffersMore self.old self.new (S.state source.old).inward
            (S.state source.new).inward }
        ensures gained_or_ended { IfOk result
            (λ more. BuffersMoreOrEnds more self.old self.new (S.state source.new).inward) }
        ensures err_unchanged { OnErr result (self.new ≡ self.old) }
        ensures only_reads { OnlyReads (S.state source.old) (S.state source.new) result }
    {
        let held = self.end - self.start;
        move_to_front(&mut self.buffer, self.start, self.end);
        self.start = 0;
        self.end = held;
        match source.read(&mut self.buffer[self.end..]) {
            Ok(count) => {
                self.end += count;
                Ok(count > 0)
            }
            Err(Failed) => Err(ReadFault),
        }
    }

    // Reads until `count` bytes are buffered. False if the source ends before.
    pub fn fill_to<S: Source>(&mut self, source: &mut S, count: usize) -> Result<bool, ReadFault>
        requires { count ≤ MAX_HELD_BYTES }
        ensures gains_source_bytes { BuffersMore self.old self.new (S.state source.old).inward
            (S.state source.new).inward }
        ensures enough_or_ended { IfOk result
            (λ enough. BuffersEnoughOrEnds enough count self.new (S.state source.new).inward) }
        ensures err_before_enough { OnErr result (length self.new < count) }
        ensures only_reads { OnlyReads (S.state source.old) (S.state source.new) result }
    {
        'reading: while self.len() < count {
            if !self.fill(source)? {
                return Ok(false);
            }
        }
        Ok(true)
    }
}

/// The request reader of a connection: the bytes that were read and not used yet, the number of
/// requests so far, and whether it is spent. One reader serves connections one after the other.
#[derive(Drop)]
pub struct RequestReader {
    pub(crate) read_buffer: ReadBuffer,
    pub(crate) decoder: Decoder,
    pub(crate) requests: usize,
    pub(crate) spent: bool,
}

impl Model for RequestReader {
    ghost use Rattle.std.specs.Prelude.{◌≡◌, ◌<◌, false};
    ghost use Rattle.http_wire.specs.NextRequests.{RequestReaderState};
    ghost use Rattle.http_wire.specs.declared.limits.TheConstants.{MAX_REQUESTS};

    ghost Value = { RequestReaderState };

    ghost view = { λ w. record { held = w.read_buffer; requests = w.requests; spent = w.spent } };

    ghost invariant = { λ w. w.spent ≡ false → w.requests < MAX_REQUESTS };
}

impl RequestReader {
    /// A reader for a new connection. It allocates its buffers; later calls allocate only for
    /// requests.
    ///
    /// # Errors
    /// `AllocError` when out of memory.
    pub fn new(alloc: Global) -> Result<RequestReader, AllocError>
        ensures ok { IfOk result (λ request_reader. request_reader ≡ fresh_request_reader) }
    {
        Ok(RequestReader {
            read_buffer: ReadBuffer::new(alloc)?,
            decoder: Decoder::new(alloc)?,
            requests: 0,
            spent: false,
        })
    }

    /// Prepares the reader for a new connection: buffered bytes are discarded. Does not allocate.
    pub fn reset(&mut self)
        ensures begins_anew { self.new ≡ fresh_request_reader }
    {
        self.read_buffer.truncate(0);
        self.requests = 0;
        self.spent = false;
    }

    /// The number of bytes read and not used yet: 278,528 at most. Does not allocate.
    pub fn held(&self) -> usize
        ensures exact { result ≡ length self.now.held }
        ensures at_most_limit { result ≤ MAX_HELD_BYTES }
    {
        self.read_buffer.len()
    }
}
