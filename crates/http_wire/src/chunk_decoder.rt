// Decodes chunked bodies as their bytes arrive (RFC 9112, section 7.1).
ghost use Rattle.std.specs.Prelude.{◌≡◌, ◌<◌, ◌≤◌, ◌+◌, length, take, false, IfOk};
ghost use Rattle.http_wire.specs.inner.ChunkDecoder.{Decoding, initial_decoding, is_settled};
ghost use Rattle.http_wire.specs.inner.ChunkDecoder.{expects_data};
ghost use Rattle.http_wire.specs.inner.ChunkDecoder.{state_after_digits, state_in_digits};
ghost use Rattle.http_wire.specs.inner.ChunkDecoder.{state_in_extension};
ghost use Rattle.http_wire.specs.inner.ChunkDecoder.{state_after_line};
ghost use Rattle.http_wire.specs.inner.ChunkDecoder.{state_in_trailers, state_if_line_feed};
ghost use Rattle.http_wire.specs.inner.ChunkDecoder.{next_state};
ghost use Rattle.http_wire.specs.inner.ChunkDecoder.{next_decoding};
ghost use Rattle.http_wire.specs.inner.ChunkDecoder.{DecodesBytes, IsWithinLimits};

use crate::limits::{MAX_BODY_BYTES, MAX_DIGITS, MAX_LINE, MAX_TRAILER_BYTES};
use httparse::{is_header_value_token, is_space_or_tab, parse_hex_digit};
use std::alloc::{AllocError, Global};
use std::marker::Model;

// The decoder's state: the next expected part of a chunked body.
#[derive(Clone, Copy)]
pub enum ChunkState {
    // In a chunk line that has only digits so far.
    Size { digits: usize, value: usize },
    // After the digits of a chunk line.
    Blank { value: usize, len: usize },
    // In the extension of a chunk line.
    Extension { value: usize, len: usize },
    // The line feed of a chunk line is next.
    SizeEnd { value: usize },
    // `left` bytes of the chunk are next, and then a carriage return.
    Data { left: usize },
    // The line feed after a chunk's bytes is next.
    DataEnd,
    // Before a trailer line or the last line end.
    Trailers { used: usize },
    // In a trailer line.
    Trailer { used: usize },
    // The line feed of a trailer line is next.
    TrailerEnd { used: usize },
    // The last line feed is next.
    LastEnd,
    Done,
    // No chunked body continues like this.
    Bad,
    // The sizes of the chunks sum to more than the limit.
    TooLong,
}

fn state_after_digits(value: usize, len: usize, byte: u8) -> ChunkState
    requires { len ≤ MAX_LINE }
    ensures exact { result ≡ state_after_digits value len byte }
{
    if byte == b'\r' {
        ChunkState::SizeEnd { value }
    } else if len >= MAX_LINE {
        ChunkState::Bad
    } else if is_space_or_tab(byte) {
        ChunkState::Blank {
            value,
            len: len + 1,
        }
    } else if byte == b';' {
        ChunkState::Extension {
            value,
            len: len + 1,
        }
    } else {
        ChunkState::Bad
    }
}

fn state_in_digits(digits: usize, value: usize, byte: u8) -> ChunkState
    requires within_max { digits ≤ MAX_DIGITS }
    requires capped { value ≤ MAX_BODY_BYTES + 1 }
    ensures exact { result ≡ state_in_digits digits value byte }
{
    match parse_hex_digit(byte) {
        Some(_) if digits >= MAX_DIGITS => ChunkState::Bad,
        Some(digit) => ChunkState::Size {
            digits: digits + 1,
            value: (value * 16 + digit as usize).min(MAX_BODY_BYTES + 1),
        },
        None if digits == 0 => ChunkState::Bad,
        None => state_after_digits(value, digits, byte),
    }
}

fn state_in_extension(value: usize, len: usize, byte: u8) -> ChunkState
    requires { len ≤ MAX_LINE }
    ensures exact { result ≡ state_in_extension value len byte }
{
    if byte == b'\r' {
        ChunkState::SizeEnd { value }
    } else if len < MAX_LINE && is_header_value_token(byte) {
        ChunkState::Extension {
            value,
            len: len + 1,
        }
    } else {
        ChunkState::Bad
    }
}

fn state_after_line(value: usize, decoded: usize, byte: u8) -> ChunkState
    requires capped { value ≤ MAX_BODY_BYTES + 1 }
    requires room_left { decoded ≤ MAX_BODY_BYTES }
    ensures exact { result ≡ state_after_line value decoded byte }
{
    if byte != b'\n' {
        ChunkState::Bad
    } else if value == 0 {
        ChunkState::Trailers { used: 0 }
    } else if decoded + value <= MAX_BODY_BYTES {
        ChunkState::Data { left: value }
    } else {
        ChunkState::TooLong
    }
}

fn state_in_trailers(used: usize, byte: u8, end: ChunkState) -> ChunkState
    requires { used ≤ MAX_TRAILER_BYTES }
    ensures exact { result ≡ state_in_trailers used byte end }
{
    if byte == b'\r' {
        end
    } else if byte != b'\n' && used + 3 <= MAX_TRAILER_BYTES {
        ChunkState::Trailer { used: used + 1 }
    } else {
        ChunkState::Bad
    }
}

fn state_if_line_feed(byte: u8, next: ChunkState) -> ChunkState
    ensures exact { result ≡ state_if_line_feed byte next }
{
    if byte == b'\n' { next } else { ChunkState::Bad }
}

// The state after a byte that is not a chunk's data.
pub fn next_state(stage: ChunkState, decoded: usize, byte: u8) -> ChunkState
    requires fits { IsWithinLimits stage decoded }
    requires not_data { expects_data stage ≡ false }
    ensures exact { result ≡ next_state stage decoded byte }
{
    match stage {
        ChunkState::Size { digits, value } => state_in_digits(digits, value, byte),
        ChunkState::Blank { value, len } => state_after_digits(value, len, byte),
        ChunkState::Extension { value, len } => state_in_extension(value, len, byte),
        ChunkState::SizeEnd { value } => state_after_line(value, decoded, byte),
        ChunkState::Data { .. } if byte == b'\r' => ChunkState::DataEnd,
        ChunkState::Data { .. } => ChunkState::Bad,
        ChunkState::DataEnd => state_if_line_feed(
            byte,
            ChunkState::Size {
                digits: 0,
                value: 0,
            },
        ),
        ChunkState::Trailers { used } => state_in_trailers(used, byte, ChunkState::LastEnd),
        ChunkState::Trailer { used } => state_in_trailers(
            used,
            byte,
            ChunkState::TrailerEnd { used: used + 1 },
        ),
        ChunkState::TrailerEnd { used } => state_if_line_feed(
            byte,
            ChunkState::Trailers { used: used + 1 },
        ),
        ChunkState::LastEnd => state_if_line_feed(byte, ChunkState::Done),
        ChunkState::Done | ChunkState::Bad | ChunkState::TooLong => stage,
    }
}

// A decoder of chunked bodies, with a buffer for the longest body.
#[derive(Drop)]
pub struct Decoder {
    stage: ChunkState,
    buffer: Vec<u8>,
    decoded: usize,
}

impl Model for Decoder {
    ghost use Rattle.std.specs.Prelude.{◌≡◌, ◌≤◌, length, take};
    ghost use Rattle.http_wire.specs.inner.ChunkDecoder.{Decoding, IsWithinLimits};
    ghost use Rattle.http_wire.specs.declared.limits.TheConstants.{MAX_BODY_BYTES};

    ghost Value = { Decoding };

    ghost view = { λ d. record { stage = d.stage; body = take d.decoded d.buffer.items } };

    ghost invariant = { λ d.
        (length d.buffer.items ≡ MAX_BODY_BYTES) × (d.decoded ≤ MAX_BODY_BYTES)
        × IsWithinLimits d.stage d.decoded };
}

impl Decoder {
    pub fn new(alloc: Global) -> Result<Decoder, AllocError>
        ensures ok { IfOk result (λ decoder. decoder ≡ initial_decoding) }
    {
        Ok(Decoder {
            stage: ChunkState::Size {
                digits: 0,
                value: 0,
            },
            buffer: vec![in alloc; 0; MAX_BODY_BYTES]?,
            decoded: 0,
        })
    }

    // Prepares for the next body.
    pub fn restart(&mut self)
        ensures exact { self.new ≡ initial_decoding }
    {
        self.stage = ChunkState::Size {
            digits: 0,
            value: 0,
        };
        self.decoded = 0;
    }

    pub fn stage(&self) -> ChunkState
        ensures exact { result ≡ self.now.stage }
    {
        self.stage
    }

    // The data of the chunks so far, joined.
    pub fn body(&self) -> &[u8]
        ensures exact { result.now ≡ self.now.body }
    {
        &self.buffer[..self.decoded]
    }

    pub fn is_settled(&self) -> bool
        ensures exact { result ≡ is_settled self.now.stage }
    {
        matches!(
            self.stage,
            ChunkState::Done | ChunkState::Bad | ChunkState::TooLong
        )
    }

    // Appends at most `left` bytes of `raw` to the body, and returns how many.
    fn take_data(&mut self, raw: &[u8], left: usize) -> usize
        requires nonempty { 0 < length raw.now }
        requires data_stage { self.old.stage ≡ ChunkState.Data left }
        requires bytes_due { 0 < left }
        ensures takes_some { (0 < result) × (result ≤ length raw.now) }
        ensures reads_on { DecodesBytes self.old (take result raw.now) self.new }
    {
        let count = left.min(raw.len());
        self.buffer[self.decoded..self.decoded + count].copy_from_slice(&raw[..count]);
        self.decoded += count;
        self.stage = ChunkState::Data { left: left - count };
        count
    }

    fn read_byte(&mut self, byte: u8)
        requires not_settled { is_settled self.old.stage ≡ false }
        requires not_data { expects_data self.old.stage ≡ false }
        ensures exact { self.new ≡ next_decoding self.old byte }
    {
        self.stage = next_state(self.stage, self.decoded, byte);
    }

    // Reads at least one byte, and returns how many.
    fn advance(&mut self, raw: &[u8]) -> usize
        requires nonempty { 0 < length raw.now }
        requires not_settled { is_settled self.old.stage ≡ false }
        ensures takes_some { (0 < result) × (result ≤ length raw.now) }
        ensures reads_on { DecodesBytes self.old (take result raw.now) self.new }
    {
        match self.stage {
            ChunkState::Data { left } if left > 0 => self.take_data(raw, left),
            _ => {
                self.read_byte(raw[0]);
                1
            }
        }
    }

    // Reads until the state is settled or all bytes are read, and returns how many it read.
    pub fn feed(&mut self, raw: &[u8]) -> usize
        ensures at_most_len { result ≤ length raw.now }
        ensures reads_on { DecodesBytes self.old (take result raw.now) self.new }
        ensures all_unless_settled { is_settled self.new.stage ≡ false → result ≡ length raw.now }
    {
        let mut used = 0;
        while used < raw.len() && !self.is_settled() {
            used += self.advance(&raw[used..]);
        }
        used
    }
}
