// The bytes of a connection that were read and not yet consumed.
ghost use Rattle.std.specs.Prelude.{◌≡◌, ◌<◌, ◌≤◌, [], length, drop, take, IfOk, OnOk, OnErr};
ghost use Rattle.xcap_io.specs.StreamStates.{DiffersByReads};
ghost use Rattle.http_wire.specs.inner.ReadBuffer.{BuffersMore, BuffersMoreOrEnds};
ghost use Rattle.http_wire.specs.inner.ReadBuffer.{BuffersEnoughOrEnds};
ghost use Rattle.xcap_client.specs.inner.FillErrors.{CountsFillError};

use crate::response_fault::FillError;
use std::alloc::{AllocError, Global};
use std::marker::Model;
use xcap_io::{Bytes, Failed, Line, Source};

// The least number of bytes by which the buffer grows.
const ROOM: usize = 8192;

// The bytes read and not yet consumed, at the front of a buffer that grows with them.
#[derive(Drop)]
pub struct ReadBuffer {
    buffer: Vec<u8>,
    held: usize,
}

impl Model for ReadBuffer {
    ghost use Rattle.std.specs.Prelude.{◌≤◌, ℕ, List, length, take};

    ghost Value = { List ℕ };

    ghost view = { λ i. take i.held i.buffer.items };

    ghost invariant = { λ i. i.held ≤ length i.buffer.items };
}

// Grows the buffer where it is full.
fn make_room(buffer: &mut Vec<u8>, held: usize) -> Result<(), AllocError>
    requires { held ≤ length buffer.old.items }
    ensures at_least_held { held ≤ length buffer.new.items }
    ensures keeps_held { take held buffer.new.items ≡ take held buffer.old.items }
    ensures keeps_spare { OnOk result (held < length buffer.new.items) }
{
    if held == buffer.len() {
        buffer.extend_from_slice(&[0; ROOM])?;
    }
    Ok(())
}

impl ReadBuffer {
    // No bytes. Does not allocate.
    pub fn new(alloc: Global) -> ReadBuffer
        ensures holds_no_bytes { result ≡ [] }
    {
        ReadBuffer {
            buffer: Vec::new(alloc),
            held: 0,
        }
    }

    pub fn bytes(&self) -> &[u8]
        ensures exact { result.now ≡ self.now }
    {
        &self.buffer[..self.held]
    }

    pub fn len(&self) -> usize
        ensures exact { result ≡ length self.now }
    {
        self.held
    }

    // Drops the first bytes.
    pub fn consume(&mut self, count: usize)
        requires { count ≤ length self.old }
        ensures exact { self.new ≡ drop count self.old }
    {
        self.buffer.copy_within(count..self.held, 0);
        self.held -= count;
    }

    // The first bytes, in the buffer itself.
    pub fn into_first_bytes(self, count: usize) -> Bytes
        requires { count ≤ length self }
        ensures exact { result ≡ take count self }
    {
        let mut buffer = self.buffer;
        buffer.truncate(count);
        Bytes::from_vec(buffer)
    }

    // One read. False at the end of the source.
    pub fn fill<S: Source>(&mut self, source: &mut S) -> Result<bool, FillError>
        ensures gains_source_bytes { BuffersMore self.old self.new (S.state source.old).inward
            (S.state source.new).inward }
        ensures gained_or_ended { IfOk result
            (λ more. BuffersMoreOrEnds more self.old self.new (S.state source.new).inward) }
        ensures err_unchanged { OnErr result (self.new ≡ self.old) }
        ensures only_reads { DiffersByReads (S.state source.old) (S.state source.new) }
        ensures faults_never_fall { CountsFillError (S.state source.old).read_faults
            (S.state source.new).read_faults result }
    {
        make_room(&mut self.buffer, self.held)?;
        match source.read(&mut self.buffer[self.held..]) {
            Ok(count) => {
                self.held += count;
                Ok(count > 0)
            }
            Err(Failed) => Err(FillError::ReadFailed),
        }
    }

    // Reads until there are at least `count` bytes. False where the source ends before.
    pub fn fill_to<S: Source>(&mut self, source: &mut S, count: usize) -> Result<bool, FillError>
        ensures gains_source_bytes { BuffersMore self.old self.new (S.state source.old).inward
            (S.state source.new).inward }
        ensures enough_or_ended { IfOk result
            (λ enough. BuffersEnoughOrEnds enough count self.new (S.state source.new).inward) }
        ensures err_before_enough { OnErr result (length self.new < count) }
        ensures only_reads { DiffersByReads (S.state source.old) (S.state source.new) }
        ensures faults_never_fall { CountsFillError (S.state source.old).read_faults
            (S.state source.new).read_faults result }
    {
        'reading: while self.len() < count {
            if !self.fill(source)? {
                return Ok(false);
            }
        }
        Ok(true)
    }
}
