// The next request of a connection.
ghost use Rattle.std.specs.Prelude.{◌≡◌, ◌≤◌, ◌+◌, true, false, Ok};
ghost use Rattle.xcap_io.specs.StreamStates.{OnlyReads};
ghost use Rattle.httparse.specs.Grammar.{RequestHead};
ghost use Rattle.http_wire.specs.inner.ReadBuffer.{IsHeadAt, IsFramedHeadAt};
ghost use Rattle.http_wire.specs.NextRequests.{ReadsNextRequest, IsReaderStateAfter};

use crate::body_decoder::{DecodeResult, decode_body};
use crate::chunk_decoder::Decoder;
use crate::framing::{Framing, read_framing};
use crate::head_scan::read_head;
use crate::limits::{MAX_BODY_BYTES, MAX_FIELD_LINES};
use crate::request::{Asked, make_request};
use crate::request_reader::{ReadBuffer, ReadFault, RequestReader};
use httparse::spans::{EMPTY_HEADER_SPAN, HeaderSpan, RequestSpans};
use std::alloc::{AllocError, Global};
use xcap_io::{Line, Source};

// Reads the request whose head was found at the front, with a body of a stated length.
fn read_with_length<S: Source>(
    alloc: Global,
    source: &mut S,
    read_buffer: &mut ReadBuffer,
    headers: &[HeaderSpan],
    spans: &RequestSpans,
    len: usize,
    before: usize,
) -> Result<Asked, ReadFault>
    requires open_at { IsFramedHeadAt read_buffer.old headers.now spans.now (Framing.Length len) }
    requires within_body_limit { len ≤ MAX_BODY_BYTES }
    ensures first_item { ReadsNextRequest before
        (record { held = read_buffer.old; source = (S.state source.old).inward }) result
        (record { held = read_buffer.new; source = (S.state source.new).inward }) }
    ensures only_reads { OnlyReads (S.state source.old) (S.state source.new) result }
{
    let end = spans.len + len;
    if !read_buffer.fill_to(source, end)? {
        return Ok(Asked::Bad);
    }
    let bytes = read_buffer.bytes();
    match make_request(alloc, bytes, headers, spans, &bytes[spans.len..end], before) {
        Ok(request) => {
            read_buffer.consume(end);
            Ok(Asked::Request(request))
        }
        Err(AllocError) => Ok(Asked::NoMemory),
    }
}

// Reads the request whose head was found at the front, with a chunked body.
fn read_chunked<S: Source>(
    alloc: Global,
    source: &mut S,
    read_buffer: &mut ReadBuffer,
    decoder: &mut Decoder,
    headers: &[HeaderSpan],
    spans: &RequestSpans,
    before: usize,
) -> Result<Asked, ReadFault>
    requires { IsFramedHeadAt read_buffer.old headers.now spans.now Framing.Chunked }
    ensures first_item { ReadsNextRequest before
        (record { held = read_buffer.old; source = (S.state source.old).inward }) result
        (record { held = read_buffer.new; source = (S.state source.new).inward }) }
    ensures only_reads { OnlyReads (S.state source.old) (S.state source.new) result }
{
    match decode_body(source, read_buffer, decoder, spans.len)? {
        DecodeResult::Whole(end) => {
            match make_request(
                alloc,
                read_buffer.bytes(),
                headers,
                spans,
                decoder.body(),
                before,
            ) {
                Ok(request) => {
                    read_buffer.consume(end);
                    Ok(Asked::Request(request))
                }
                Err(AllocError) => Ok(Asked::NoMemory),
            }
        }
        DecodeResult::TooLong => Ok(Asked::TooLong),
        DecodeResult::Bad | DecodeResult::Cut => Ok(Asked::Bad),
    }
}

// Reads the item whose head was found at the front, by its framing.
fn read_after_head<S: Source>(
    alloc: Global,
    source: &mut S,
    read_buffer: &mut ReadBuffer,
    decoder: &mut Decoder,
    headers: &[HeaderSpan],
    spans: &RequestSpans,
    before: usize,
) -> Result<Asked, ReadFault>
    requires { (head : RequestHead) × IsHeadAt read_buffer.old headers.now spans.now head }
    ensures first_item { ReadsNextRequest before
        (record { held = read_buffer.old; source = (S.state source.old).inward }) result
        (record { held = read_buffer.new; source = (S.state source.new).inward }) }
    ensures only_reads { OnlyReads (S.state source.old) (S.state source.new) result }
{
    match read_framing(
        read_buffer.bytes(),
        &headers[..spans.headers],
        spans.version,
    ) {
        Framing::Bad => Ok(Asked::Bad),
        Framing::Coded => Ok(Asked::Coded),
        Framing::TooLong => Ok(Asked::TooLong),
        Framing::Length(len) => read_with_length(
            alloc,
            source,
            read_buffer,
            headers,
            spans,
            len,
            before,
        ),
        Framing::Chunked => read_chunked(
            alloc,
            source,
            read_buffer,
            decoder,
            headers,
            spans,
            before,
        ),
    }
}

// Reads the next item, after `before` requests.
fn read_item<S: Source>(
    alloc: Global,
    source: &mut S,
    read_buffer: &mut ReadBuffer,
    decoder: &mut Decoder,
    before: usize,
) -> Result<Asked, ReadFault>
    ensures first_item { ReadsNextRequest before
        (record { held = read_buffer.old; source = (S.state source.old).inward }) result
        (record { held = read_buffer.new; source = (S.state source.new).inward }) }
    ensures only_reads { OnlyReads (S.state source.old) (S.state source.new) result }
{
    let mut headers = [EMPTY_HEADER_SPAN; MAX_FIELD_LINES];
    match read_head(source, read_buffer, &mut headers)? {
        Some(spans) => read_after_head(
            alloc,
            source,
            read_buffer,
            decoder,
            &headers,
            &spans,
            before,
        ),
        None if read_buffer.is_empty() => Ok(Asked::End),
        None => Ok(Asked::Bad),
    }
}

/// Returns the next request of a connection, from the buffered bytes and then the source, or why
/// there is none, however the reads cut the bytes (RFC 9112). After every result but a request
/// that doesn't close, and after a failed read, the reader is spent: it returns `End` and reads
/// nothing until it is reset.
///
/// Only a request is allocated, and `Asked::NoMemory` comes only in place of one.
///
/// # Errors
/// `ReadFault` where a read failed before an item was complete in the bytes given; the source's
/// counter of read faults rose.
pub fn next_request<S: Source>(
    alloc: Global,
    source: &mut S,
    request_reader: &mut RequestReader,
) -> Result<Asked, ReadFault>
    ensures spent_gives_none { request_reader.old.spent ≡ true → (result ≡ Ok Asked.End)
        × (request_reader.new ≡ request_reader.old)
        × (S.state source.new ≡ S.state source.old) }
    ensures first_item { request_reader.old.spent ≡ false
        → ReadsNextRequest request_reader.old.requests
        (record { held = request_reader.old.held; source = (S.state source.old).inward }) result
        (record { held = request_reader.new.held; source = (S.state source.new).inward }) }
    ensures after_item { IsReaderStateAfter request_reader.old result request_reader.new }
    ensures only_reads { OnlyReads (S.state source.old) (S.state source.new) result }
{
    if request_reader.spent {
        return Ok(Asked::End);
    }
    request_reader.spent = true;
    let asked = read_item(
        alloc,
        source,
        &mut request_reader.read_buffer,
        &mut request_reader.decoder,
        request_reader.requests,
    )?;
    if let Asked::Request(request) = &asked {
        request_reader.requests += 1;
        request_reader.spent = request.closes;
    }
    Ok(asked)
}
