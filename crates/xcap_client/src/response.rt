// A response, read from a connection that ends after it.
ghost use Rattle.std.specs.Prelude.{◌+◌, Option, Ok};
ghost use Rattle.xcap_io.specs.StreamStates.{DiffersByReads};
ghost use Rattle.xcap_client.specs.ReadFaults.{CountsReadFault};
ghost use Rattle.xcap_client.specs.declared.body_length.BodyLength.{BodyLength};
ghost use Rattle.xcap_client.specs.Responses.{ReadsAnswer};
ghost use Rattle.xcap_client.specs.inner.ResponseBodies.{ReadsBody};

use crate::ResponseFault;
use crate::body_length::{BodyLength, MAX_RESPONSE_BODY_BYTES, read_body_length};
use crate::etags::read_tag;
use crate::head_scan::read_head;
use crate::read_buffer::ReadBuffer;
use http_wire::MAX_FIELD_LINES;
use httparse::spans::EMPTY_HEADER_SPAN;
use std::alloc::Global;
use xcap_io::{Bytes, Line, Source};
use xml_names::Text;

/// A response with its whole body.
#[derive(Drop)]
pub struct Response {
    pub status: u16,
    /// The text between the quotes of its entity tag, if it has one that is UTF-8.
    pub tag: Option<Text>,
    pub body: Bytes,
}

// The body of `len` bytes, which begins with the bytes in the read buffer.
fn read_exactly<S: Source>(
    source: &mut S,
    mut read_buffer: ReadBuffer,
    len: usize,
) -> Result<Bytes, ResponseFault>
    ensures gives_body { ReadsBody (BodyLength.Exactly len) read_buffer (S.state source.old).inward
        (S.state source.new).inward result }
    ensures only_reads { DiffersByReads (S.state source.old) (S.state source.new) }
    ensures faults_never_fall { CountsReadFault (S.state source.old).read_faults
        (S.state source.new).read_faults result }
{
    if !read_buffer.fill_to(source, len)? {
        return Err(ResponseFault::Short(read_buffer.len() as u64, len as u64));
    }
    Ok(read_buffer.into_first_bytes(len))
}

// The body that goes to the end of the bytes, and begins with the bytes in the read buffer.
fn read_to_end<S: Source>(
    source: &mut S,
    mut read_buffer: ReadBuffer,
) -> Result<Bytes, ResponseFault>
    ensures gives_body { ReadsBody BodyLength.ToEnd read_buffer (S.state source.old).inward
        (S.state source.new).inward result }
    ensures only_reads { DiffersByReads (S.state source.old) (S.state source.new) }
    ensures faults_never_fall { CountsReadFault (S.state source.old).read_faults
        (S.state source.new).read_faults result }
{
    if read_buffer.fill_to(source, MAX_RESPONSE_BODY_BYTES + 1)? {
        return Err(ResponseFault::TooLong(MAX_RESPONSE_BODY_BYTES as u64 + 1));
    }
    let len = read_buffer.len();
    Ok(read_buffer.into_first_bytes(len))
}

// The body of this length, which begins with the bytes in the read buffer.
fn read_body<S: Source>(
    alloc: Global,
    source: &mut S,
    read_buffer: ReadBuffer,
    body_len: BodyLength,
) -> Result<Bytes, ResponseFault>
    ensures gives_body { ReadsBody body_len read_buffer (S.state source.old).inward
        (S.state source.new).inward result }
    ensures only_reads { DiffersByReads (S.state source.old) (S.state source.new) }
    ensures faults_never_fall { CountsReadFault (S.state source.old).read_faults
        (S.state source.new).read_faults result }
{
    match body_len {
        BodyLength::Empty => Ok(Bytes::new(alloc)),
        BodyLength::Exactly(len) => read_exactly(source, read_buffer, len),
        BodyLength::ToEnd => read_to_end(source, read_buffer),
    }
}

/// Reads the response at the start of a connection's bytes, however the reads cut them (RFC 9112).
/// Its body goes as far as its length says, or to the end of the bytes; a 204 and a 304 have none.
///
/// # Errors
/// `ReadFailed` where a read failed before the bytes given decided; the source's count of such
/// faults rose. `NoMemory` when out of memory. Else the first of these that applies: `Head` where
/// there is no head of at most `MAX_HEAD_BYTES` bytes and `MAX_FIELD_LINES` field lines, `Coding`,
/// `Length`, `TooLong` for a body of more than `MAX_RESPONSE_BODY_BYTES` bytes, `Short`.
pub fn read_response<S: Source>(alloc: Global, source: &mut S) -> Result<Response, ResponseFault>
    ensures answers_read { ReadsAnswer (S.state source.old).inward
        (S.state source.new).inward result }
    ensures only_reads { DiffersByReads (S.state source.old) (S.state source.new) }
    ensures faults_never_fall { CountsReadFault (S.state source.old).read_faults
        (S.state source.new).read_faults result }
{
    let mut read_buffer = ReadBuffer::new(alloc);
    let mut headers = [EMPTY_HEADER_SPAN; MAX_FIELD_LINES];
    let Some(spans) = read_head(source, &mut read_buffer, &mut headers)? else {
        return Err(ResponseFault::Head);
    };
    let fields = &headers[..spans.headers];
    let body_len = read_body_length(read_buffer.bytes(), fields, spans.code)?;
    let tag = read_tag(alloc, read_buffer.bytes(), fields)?;
    read_buffer.consume(spans.len);
    let body = read_body(alloc, source, read_buffer, body_len)?;
    Ok(Response {
        status: spans.code,
        tag,
        body,
    })
}
