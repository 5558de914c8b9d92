// Reads the next item of the bytes held, from the place that was reached before.
ghost use Rattle.std.specs.Prelude.{◌≡◌, ◌≤◌, ◌+◌, List, ℕ, length, take, drop, false, IfOk, OnErr};
ghost use Rattle.std.specs.Prelude.{MatchResult};
ghost use Rattle.http_wire.specs.Heads.{HasNoHead};
ghost use Rattle.http_wire.specs.inner.ChunkDecoder.{Decoding, DecodesBytes, is_settled};
ghost use Rattle.http_feed.specs.inner.Places.{AnswersStep, HoldsBytes, IsInBody};
ghost use Rattle.http_feed.specs.inner.Places.{IsInChunks};
ghost use Rattle.http_feed.specs.inner.Places.{IsReachablePlace, HasWholeChunks};

use crate::chunk_data::ChunkData;
use crate::read_buffer::ReadBuffer;
use http_wire::reader_parts::{
    ChunkState, Framing, HeadScan, make_request, read_framing, rescan_head, scan_head,
};
use http_wire::{Asked, MAX_BODY_BYTES, MAX_FIELD_LINES};
use httparse::spans::EMPTY_HEADER_SPAN;
use std::alloc::{AllocError, Global};

// How far the next item was read.
#[derive(Clone, Copy)]
pub enum ReadPlace {
    // There is no head in the first `seen` bytes.
    Head { seen: usize },
    // After a head of `head` bytes comes a body of `len` bytes.
    Body { head: usize, len: usize },
    // After a head of `head` bytes comes a chunked body.
    Chunks { head: usize },
}

// What comes of the bytes held.
#[derive(Drop)]
pub enum ReadStep {
    Item(Asked),
    // No item is complete.
    Open(ReadPlace),
}

// The request whose head, which was found before, and body are complete. The head is scanned a
// second time, so that no spans are kept.
fn read_body(
    alloc: Global,
    held: &mut ReadBuffer,
    head: usize,
    len: usize,
    before: usize,
) -> ReadStep
    requires within_limit { len ≤ MAX_BODY_BYTES }
    ensures answers { (given : List ℕ) (decoding : Decoding)
        → IsInBody head len held.old.bytes given
        → AnswersStep before given result held.new.bytes decoding }
{
    if held.len() < head || held.len() - head < len {
        return ReadStep::Open(ReadPlace::Body { head, len });
    }
    let mut headers = [EMPTY_HEADER_SPAN; MAX_FIELD_LINES];
    let bytes = held.bytes();
    let HeadScan::Head(spans) = scan_head(bytes, &mut headers) else {
        return ReadStep::Open(ReadPlace::Body { head, len });
    };
    let end = head + len;
    match make_request(alloc, bytes, &headers, &spans, &bytes[head..end], before) {
        Ok(request) => {
            held.consume(end);
            ReadStep::Item(Asked::Request(request))
        }
        Err(AllocError) => ReadStep::Item(Asked::NoMemory),
    }
}

// The request whose head was found before, and whose chunked body was decoded up to `used` bytes
// after it.
fn read_decoded(
    alloc: Global,
    held: &mut ReadBuffer,
    body: &[u8],
    head: usize,
    used: usize,
    before: usize,
) -> ReadStep
    requires inside { head + used ≤ length held.old.bytes }
    ensures answers { (given : List ℕ) (decoding : Decoding)
        → HasWholeChunks head used held.old.bytes body.now given
        → AnswersStep before given result held.new.bytes decoding }
{
    let mut headers = [EMPTY_HEADER_SPAN; MAX_FIELD_LINES];
    let bytes = held.bytes();
    let HeadScan::Head(spans) = scan_head(bytes, &mut headers) else {
        return ReadStep::Item(Asked::End);
    };
    match make_request(alloc, bytes, &headers, &spans, body, before) {
        Ok(request) => {
            held.consume(head + used);
            ReadStep::Item(Asked::Request(request))
        }
        Err(AllocError) => ReadStep::Item(Asked::NoMemory),
    }
}

// The item whose head was found before, after `used` more bytes of its chunked body were decoded.
// Decoded bytes leave the buffer.
fn read_used(
    alloc: Global,
    held: &mut ReadBuffer,
    chunks: &ChunkData,
    head: usize,
    used: usize,
    before: usize,
) -> ReadStep
    requires inside { head + used ≤ length held.old.bytes }
    ensures answers { (given : List ℕ) (old : Decoding) → IsInChunks head held.old.bytes old given
        → DecodesBytes old (take used (drop head held.old.bytes)) chunks.now.decoding
        → (is_settled chunks.now.decoding.stage ≡ false → used ≡ length (drop head held.old.bytes))
        → AnswersStep before given result held.new.bytes chunks.now.decoding }
{
    match chunks.state() {
        ChunkState::Done => read_decoded(alloc, held, chunks.data(), head, used, before),
        ChunkState::TooLong => ReadStep::Item(Asked::TooLong),
        ChunkState::Bad => ReadStep::Item(Asked::Bad),
        _ => {
            held.truncate(head);
            ReadStep::Open(ReadPlace::Chunks { head })
        }
    }
}

// The item whose head was found before, and whose body is chunked.
fn read_chunks(
    alloc: Global,
    held: &mut ReadBuffer,
    chunks: &mut ChunkData,
    head: usize,
    before: usize,
) -> Result<ReadStep, AllocError>
    requires inside { head ≤ length held.old.bytes }
    ensures answers { (given : List ℕ) → IsInChunks head held.old.bytes chunks.old.decoding given
        → IfOk result (λ step. AnswersStep before given step held.new.bytes chunks.new.decoding) }
    ensures err_unchanged { OnErr result ((held.new ≡ held.old) × (chunks.new ≡ chunks.old)) }
{
    let used = chunks.feed(&held.bytes()[head..])?;
    Ok(read_used(alloc, held, chunks, head, used, before))
}

// The item of which no head is in the first `seen` bytes.
fn read_head(
    alloc: Global,
    held: &mut ReadBuffer,
    chunks: &mut ChunkData,
    seen: usize,
    before: usize,
) -> Result<ReadStep, AllocError>
    requires inside { seen ≤ length held.old.bytes }
    requires no_head_yet { HasNoHead (take seen held.old.bytes) }
    ensures answers { IfOk result
        (λ step. AnswersStep before held.old.bytes step held.new.bytes chunks.new.decoding) }
    ensures err_unchanged { OnErr result (held.new ≡ held.old) }
{
    let mut headers = [EMPTY_HEADER_SPAN; MAX_FIELD_LINES];
    let spans = match rescan_head(held.bytes(), seen, &mut headers) {
        HeadScan::Head(spans) => spans,
        HeadScan::Hopeless => return Ok(ReadStep::Item(Asked::Bad)),
        HeadScan::Open => return Ok(ReadStep::Open(ReadPlace::Head { seen: held.len() })),
    };
    match read_framing(held.bytes(), &headers[..spans.headers], spans.version) {
        Framing::Bad => Ok(ReadStep::Item(Asked::Bad)),
        Framing::Coded => Ok(ReadStep::Item(Asked::Coded)),
        Framing::TooLong => Ok(ReadStep::Item(Asked::TooLong)),
        Framing::Length(len) => Ok(read_body(alloc, held, spans.len, len, before)),
        Framing::Chunked => {
            chunks.clear();
            read_chunks(alloc, held, chunks, spans.len, before)
        }
    }
}

// The next item after `before` requests, or none if none is complete in the bytes held.
pub fn read_item(
    alloc: Global,
    held: &mut ReadBuffer,
    chunks: &mut ChunkData,
    place: ReadPlace,
    before: usize,
) -> Result<ReadStep, AllocError>
    requires placed { IsReachablePlace place held.old.bytes }
    ensures answers { (given : List ℕ) → HoldsBytes place held.old.bytes chunks.old.decoding given
        → MatchResult result
        (λ step. AnswersStep before given step held.new.bytes chunks.new.decoding)
        (λ _. HoldsBytes place held.new.bytes chunks.new.decoding given) }
    ensures err_unchanged { OnErr result (held.new ≡ held.old) }
{
    match place {
        ReadPlace::Head { seen } => read_head(alloc, held, chunks, seen, before),
        ReadPlace::Body { head, len } => Ok(read_body(alloc, held, head, len, before)),
        ReadPlace::Chunks { head } => read_chunks(alloc, held, chunks, head, before),
    }
}
