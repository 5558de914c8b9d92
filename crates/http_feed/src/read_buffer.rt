// The bytes given and not used yet.
ghost use Rattle.std.specs.Prelude.{◌≡◌, ◌+◌, ◌-◌, ◌≤◌, ◌↔◌, [], ◌++◌, min, length, take, drop};
ghost use Rattle.std.specs.Prelude.{vec_len, vec_capacity, IfOk, OnErr, IsTrue};
ghost use Rattle.http_feed.specs.inner.Buffers.{no_bytes};

use http_wire::reader_parts::MAX_HELD_BYTES;
use std::alloc::{AllocError, Global};
use std::marker::Model;

// The bytes given and not used yet: the end of a buffer that grows by need.
#[derive(Drop)]
pub struct ReadBuffer {
    buffer: Vec<u8>,
    // the bytes before it are used
    start: usize,
    // how many may be added without allocation
    room: usize,
}

impl Model for ReadBuffer {
    ghost use Rattle.std.specs.Prelude.{◌-◌, ◌+◌, ◌≤◌, length, drop, vec_capacity};
    ghost use Rattle.http_wire.specs.declared.limits.TheConstants.{MAX_HELD_BYTES};
    ghost use Rattle.http_feed.specs.inner.Buffers.{ReadBufferState};

    ghost Value = { ReadBufferState };

    ghost view = { λ h. record {
      bytes = drop h.start h.buffer.items;
      room = h.room;
      capacity = vec_capacity h.buffer;
    } };

    ghost invariant = { λ h.
        (h.start ≤ length h.buffer.items)
        × (length h.buffer.items + h.room ≤ vec_capacity h.buffer)
        × ((length h.buffer.items - h.start) + h.room ≤ MAX_HELD_BYTES) };
}

// Removes the first `count` bytes, and moves the others to the front.
fn remove_front(buffer: &mut Vec<u8>, count: usize)
    requires { count ≤ vec_len buffer.old }
    ensures exact { buffer.new.items ≡ drop count buffer.old.items }
    ensures same_capacity { vec_capacity buffer.new ≡ vec_capacity buffer.old }
{
    if count > 0 {
        let end = buffer.len();
        buffer.copy_within(count..end, 0);
        buffer.truncate(end - count);
    }
}

impl ReadBuffer {
    // An empty buffer. Does not allocate.
    pub fn new(alloc: Global) -> ReadBuffer
        ensures exact { result ≡ no_bytes }
    {
        ReadBuffer {
            buffer: Vec::new(alloc),
            start: 0,
            room: 0,
        }
    }

    pub fn bytes(&self) -> &[u8]
        ensures exact { result.now ≡ self.now.bytes }
    {
        &self.buffer[self.start..]
    }

    pub fn len(&self) -> usize
        ensures exact { result ≡ length self.now.bytes }
        ensures at_most_limit { length self.now.bytes + self.now.room ≤ MAX_HELD_BYTES }
    {
        self.buffer.len() - self.start
    }

    pub fn is_empty(&self) -> bool
        ensures exact { IsTrue result ↔ (self.now.bytes ≡ []) }
    {
        self.bytes().is_empty()
    }

    pub fn room(&self) -> usize
        ensures exact { result ≡ self.now.room }
    {
        self.room
    }

    pub fn capacity(&self) -> usize
        ensures exact { result ≡ self.now.capacity }
    {
        self.buffer.capacity()
    }

    // Allocates for `wanted` more bytes, or as many as the limit allows, and returns how many. The
    // bytes held are moved to the front: once for each item, if room is made only where none is
    // complete.
    pub fn reserve(&mut self, wanted: usize) -> Result<usize, AllocError>
        ensures up_to_limit { IfOk result
            (λ count. count ≡ min wanted (MAX_HELD_BYTES - length self.old.bytes)) }
        ensures room { IfOk result (λ count. self.new.room ≡ count) }
        ensures same_bytes { self.new.bytes ≡ self.old.bytes }
        ensures err_unchanged { OnErr result (self.new ≡ self.old) }
    {
        remove_front(&mut self.buffer, self.start);
        self.start = 0;
        let count = wanted.min(MAX_HELD_BYTES - self.buffer.len());
        self.buffer.try_reserve(count)?;
        self.room = count;
        Ok(count)
    }

    // Adds bytes for which there is room.
    pub fn add(&mut self, bytes: &[u8])
        requires { length bytes.now ≤ self.old.room }
        ensures exact { self.new.bytes ≡ self.old.bytes ++ bytes.now }
        ensures less_room { self.new.room + length bytes.now ≡ self.old.room }
        ensures at_most_limit { length self.new.bytes + self.new.room ≤ MAX_HELD_BYTES }
    {
        match self.buffer.extend_from_slice(bytes) {
            Ok(()) => self.room -= bytes.len(),
            Err(_) => unreachable!(),
        }
    }

    // Keeps only the first `count` bytes.
    pub fn truncate(&mut self, count: usize)
        requires { count ≤ length self.old.bytes }
        ensures exact { self.new.bytes ≡ take count self.old.bytes }
    {
        self.buffer.truncate(self.start + count);
    }

    // Removes the first `count` bytes without moving the others.
    pub fn consume(&mut self, count: usize)
        requires { count ≤ length self.old.bytes }
        ensures exact { self.new.bytes ≡ drop count self.old.bytes }
    {
        self.start += count;
    }

    // Removes all bytes, and frees the memory.
    pub fn clear(&mut self)
        ensures exact { self.new ≡ no_bytes }
    {
        self.buffer.clear();
        self.buffer.shrink_to_fit();
        self.start = 0;
        self.room = 0;
    }
}
