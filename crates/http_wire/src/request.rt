// A request, and what may come in place of one.
ghost use Rattle.std.specs.Prelude.{◌≡◌, ◌==◌, ◌||◌, All, IfOk, length, map, take};
ghost use Rattle.httparse.specs.Spans.{IsHeaderWithin, IsRequestWithin, header_bytes, span_bytes};
ghost use Rattle.http_wire.specs.Fields.{asks_to_close};
ghost use Rattle.http_wire.specs.ConnectionItems.{field_of};

use crate::framing::asks_to_close;
use crate::limits::MAX_REQUESTS;
use httparse::spans::{HeaderSpan, RequestSpans};
use std::alloc::{AllocError, Global};
use xcap_io::Bytes;
use xml_names::{List, Text};

/// A field line of a head (RFC 9110, section 5): the name as it was spelled, and the value without
/// spaces and tabs at its ends.
#[derive(Drop)]
pub struct Field {
    pub name: Text,
    pub value: Bytes,
}

/// A request with its whole body.
#[derive(Drop)]
pub struct Request {
    pub method: Text,
    /// The target as it was sent, with its escapes.
    pub target: Bytes,
    /// The connection ends after the reply.
    pub closes: bool,
    pub fields: List<Field>,
    /// The body; of a chunked one, the data of its chunks, joined.
    pub body: Bytes,
}

/// The next request of a connection, or why there is none.
#[derive(Drop)]
pub enum Asked {
    Request(Request),
    /// Not an acceptable request of HTTP/1.1: 400.
    Bad,
    /// A body beyond the limit: 413.
    TooLong,
    /// A transfer coding other than `chunked`: 501.
    Coded,
    /// Nothing is left, or the reader is spent.
    End,
    /// A request, but memory ran out before it was complete.
    NoMemory,
}

/// The text of a token, which is ASCII, so that its characters are its bytes.
///
/// # Errors
/// Out of memory, and nothing else.
pub fn token_text(alloc: Global, token: &[u8]) -> Result<Text, AllocError>
    ensures ok { IfOk result (λ text. text ≡ token.now) }
{
    let mut text = Text::own(String::new(alloc));
    'token: for byte in token {
        text.push(char::from(*byte))?;
    }
    Ok(text)
}

fn fields_of(alloc: Global, bytes: &[u8], headers: &[HeaderSpan]) -> Result<List<Field>, AllocError>
    requires { All (IsHeaderWithin (length bytes.now)) headers.now }
    ensures ok { IfOk result
        (λ fields. fields ≡ map field_of (map (header_bytes bytes.now) headers.now)) }
{
    let mut fields = List::empty(alloc);
    'fields: for header in headers {
        let name = token_text(alloc, header.name.of(bytes))?;
        let value = Bytes::from(alloc, header.value.of(bytes))?;
        fields.push(Field { name, value })?;
    }
    Ok(fields)
}

// Builds the request of the head that the spans cover and this body, after `before` earlier
// requests of the connection.
pub fn make_request(
    alloc: Global,
    bytes: &[u8],
    headers: &[HeaderSpan],
    spans: &RequestSpans,
    body: &[u8],
    before: usize,
) -> Result<Request, AllocError>
    requires { IsRequestWithin bytes.now headers.now spans.now }
    ensures method_of_head { IfOk result
        (λ request. request.method ≡ span_bytes bytes.now spans.now.method) }
    ensures target_of_head { IfOk result
        (λ request. request.target ≡ span_bytes bytes.now spans.now.path) }
    ensures closes_as_asked { IfOk result
        (λ request. request.closes ≡ ((before == 999) || ((spans.now.version == 0)
        || asks_to_close (map (header_bytes bytes.now) (take spans.now.headers headers.now))))) }
    ensures fields_of_head { IfOk result
        (λ request. request.fields
        ≡ map field_of (map (header_bytes bytes.now) (take spans.now.headers headers.now))) }
    ensures given_body { IfOk result (λ request. request.body ≡ body.now) }
{
    let fields = &headers[..spans.headers];
    let closes = before == MAX_REQUESTS - 1 || spans.version == 0 || asks_to_close(bytes, fields);
    Ok(Request {
        method: token_text(alloc, spans.method.of(bytes))?,
        target: Bytes::from(alloc, spans.path.of(bytes))?,
        closes,
        fields: fields_of(alloc, bytes, fields)?,
        body: Bytes::from(alloc, body)?,
    })
}
