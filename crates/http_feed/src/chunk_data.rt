// Decodes a chunked body as its bytes come (RFC 9112, section 7.1), into a buffer that grows.
ghost use Rattle.std.specs.Prelude.{◌≡◌, ◌+◌, ◌<◌, ◌≤◌, ◌-◌, length, take, false, IfOk, OnErr};
ghost use Rattle.http_wire.specs.inner.ChunkDecoder.{initial_decoding, is_settled, expects_data};
ghost use Rattle.http_wire.specs.inner.ChunkDecoder.{DecodesBytes};
ghost use Rattle.http_wire.specs.inner.ChunkDecoder.{next_decoding};

use http_wire::reader_parts::{ChunkState, next_state};
use std::alloc::{AllocError, Global};
use std::marker::Model;

// The state before a chunked body.
const START: ChunkState = ChunkState::Size {
    digits: 0,
    value: 0,
};

// A decoder of chunked bodies: its state, and the data of the chunks so far, joined.
#[derive(Drop)]
pub struct ChunkData {
    state: ChunkState,
    bytes: Vec<u8>,
}

impl Model for ChunkData {
    ghost use Rattle.std.specs.Prelude.{length, vec_capacity};
    ghost use Rattle.http_wire.specs.inner.ChunkDecoder.{decoding, IsWithinLimits};
    ghost use Rattle.http_feed.specs.inner.Buffers.{ChunkDataState};

    ghost Value = { ChunkDataState };

    ghost view = { λ d. record {
      decoding = decoding d.state d.bytes.items;
      capacity = vec_capacity d.bytes;
    } };

    ghost invariant = { λ d. IsWithinLimits d.state (length d.bytes.items) };
}

impl ChunkData {
    // A decoder before its first body. Does not allocate.
    pub fn new(alloc: Global) -> ChunkData
        ensures at_start { result.decoding ≡ initial_decoding }
        ensures nothing_allocated { result.capacity ≡ 0 }
    {
        ChunkData {
            state: START,
            bytes: Vec::new(alloc),
        }
    }

    // Prepares for the next body, and frees the memory.
    pub fn clear(&mut self)
        ensures at_start { self.new.decoding ≡ initial_decoding }
        ensures freed { self.new.capacity ≡ 0 }
    {
        self.state = START;
        self.bytes.clear();
        self.bytes.shrink_to_fit();
    }

    pub fn state(&self) -> ChunkState
        ensures exact { result ≡ self.now.decoding.stage }
    {
        self.state
    }

    // The data of the chunks so far, joined.
    pub fn data(&self) -> &[u8]
        ensures exact { result.now ≡ self.now.decoding.body }
    {
        &self.bytes
    }

    pub fn capacity(&self) -> usize
        ensures exact { result ≡ self.now.capacity }
    {
        self.bytes.capacity()
    }

    fn is_settled(&self) -> bool
        ensures exact { result ≡ is_settled self.now.decoding.stage }
    {
        matches!(
            self.state,
            ChunkState::Done | ChunkState::Bad | ChunkState::TooLong
        )
    }

    // Appends at most `left` bytes of `raw` to the data, and returns how many.
    fn take_data(&mut self, raw: &[u8], left: usize) -> usize
        requires nonempty { 0 < length raw.now }
        requires data_stage { self.old.decoding.stage ≡ ChunkState.Data left }
        requires bytes_due { 0 < left }
        requires room { length self.old.decoding.body + length raw.now ≤ self.old.capacity }
        ensures takes_some { (0 < result) × (result ≤ length raw.now) }
        ensures reads_on { DecodesBytes self.old.decoding (take result raw.now) self.new.decoding }
        ensures room_left { length self.new.decoding.body + (length raw.now - result)
            ≤ self.new.capacity }
    {
        let count = left.min(raw.len());
        match self.bytes.extend_from_slice(&raw[..count]) {
            Ok(()) => self.state = ChunkState::Data { left: left - count },
            Err(_) => unreachable!(),
        }
        count
    }

    fn read_byte(&mut self, byte: u8)
        requires not_settled { is_settled self.old.decoding.stage ≡ false }
        requires not_data { expects_data self.old.decoding.stage ≡ false }
        ensures exact { self.new.decoding ≡ next_decoding self.old.decoding byte }
        ensures same_body { self.new.decoding.body ≡ self.old.decoding.body }
        ensures same_capacity { self.new.capacity ≡ self.old.capacity }
    {
        self.state = next_state(self.state, self.bytes.len(), byte);
    }

    // Reads at least one byte, and returns how many.
    fn advance(&mut self, raw: &[u8]) -> usize
        requires nonempty { 0 < length raw.now }
        requires not_settled { is_settled self.old.decoding.stage ≡ false }
        requires room { length self.old.decoding.body + length raw.now ≤ self.old.capacity }
        ensures takes_some { (0 < result) × (result ≤ length raw.now) }
        ensures reads_on { DecodesBytes self.old.decoding (take result raw.now) self.new.decoding }
        ensures room_left { length self.new.decoding.body + (length raw.now - result)
            ≤ self.new.capacity }
    {
        match self.state {
            ChunkState::Data { left } if left > 0 => self.take_data(raw, left),
            _ => {
                self.read_byte(raw[0]);
                1
            }
        }
    }

    // Reads until the state is settled or all bytes are read, and returns how many it read.
    fn read(&mut self, raw: &[u8]) -> usize
        requires room { length self.old.decoding.body + length raw.now ≤ self.old.capacity }
        ensures at_most_len { result ≤ length raw.now }
        ensures reads_on { DecodesBytes self.old.decoding (take result raw.now) self.new.decoding }
        ensures all_unless_settled { is_settled self.new.decoding.stage ≡ false
            → result ≡ length raw.now }
    {
        let mut used = 0;
        'decoding: while used < raw.len() && !self.is_settled() {
            used += self.advance(&raw[used..]);
        }
        used
    }

    fn reserve(&mut self, count: usize) -> Result<(), AllocError>
        ensures room { IfOk result (λ _. length self.old.decoding.body + count
            ≤ self.new.capacity) }
        ensures same_decoding { self.new.decoding ≡ self.old.decoding }
        ensures err_unchanged { OnErr result (self.new ≡ self.old) }
    {
        self.bytes.try_reserve(count)
    }

    // Reads until the state is settled or all bytes are read, and returns how many it read. It
    // allocates before it reads, so that nothing changes when out of memory.
    pub fn feed(&mut self, raw: &[u8]) -> Result<usize, AllocError>
        ensures at_most_len { IfOk result (λ used. used ≤ length raw.now) }
        ensures reads_on { IfOk result
            (λ used. DecodesBytes self.old.decoding (take used raw.now) self.new.decoding) }
        ensures all_unless_settled { IfOk result
            (λ used. is_settled self.new.decoding.stage ≡ false → used ≡ length raw.now) }
        ensures err_unchanged { OnErr result (self.new ≡ self.old) }
    {
        self.reserve(raw.len())?;
        Ok(self.read(raw))
    }
}
