// A request, and how it is written to a connection.
ghost use Rattle.std.specs.Prelude.{◌≡◌, ◌++◌, [], ℕ, List, flat_map, decimal, length};
ghost use Rattle.std.specs.Option.{option_map_or};
ghost use Rattle.xcap_io.specs.BufferedWrites.{BuffersBytes};
ghost use Rattle.xcap_io.specs.StreamStates.{OnlyWrites};
ghost use Rattle.xcap_io.specs.StreamWrites.{WritesAll};
ghost use Rattle.xcap_client.specs.Requests.{IsLawfulAsk, user_field, content_fields, field_line};
ghost use Rattle.xcap_client.specs.Requests.{request_bytes};

use itoa::Buffer;
use xcap_io::{Bytes, Failed, Line, Sink, WriteBuffer, flush, put};
use xcap_uri::Root;
use xml_names::Text;

/// A request to a server: a method, a path under its root, the user who asks, and for a PUT the
/// media type of the body and the body.
#[derive(Drop)]
pub struct Ask {
    pub method: Text,
    /// The path after the root and a slash, with its escapes.
    pub path: Text,
    pub user: Option<Text>,
    pub media: Option<Text>,
    pub body: Bytes,
}

// Writes one piece after the other.
fn write_pieces<S: Sink>(
    sink: &mut S,
    write_buffer: &mut WriteBuffer,
    pieces: &[&[u8]],
) -> Result<(), Failed>
    ensures appends_pieces { BuffersBytes
        (record { sink = S.state sink.old; held = write_buffer.old })
        (record { sink = S.state sink.new; held = write_buffer.new }) result
        (flat_map (λ piece. piece.now) pieces.now) }
{
    'pieces: for piece in pieces {
        put(sink, write_buffer, piece)?;
    }
    Ok(())
}

// The pieces of the field that names the user, if there is one.
fn user_line(user: &Option<Text>) -> (&[u8], &[u8], &[u8])
    ensures user_header { result.0.now ++ (result.1.now ++ result.2.now)
        ≡ flat_map field_line (option_map_or user_field user.now []) }
{
    match user {
        Some(user) => (b"X-XCAP-User: ", user.as_str().as_bytes(), b"\r\n"),
        None => (b"", b"", b""),
    }
}

// The pieces of the fields about the body, if there is one.
fn content_lines<'a>(
    media: &'a Option<Text>,
    digits: &'a [u8],
) -> (&'a [u8], &'a [u8], &'a [u8], &'a [u8], &'a [u8])
    ensures content_headers { (body : List ℕ) → digits.now ≡ decimal (length body)
        → result.0.now ++ (result.1.now ++ (result.2.now ++ (result.3.now ++ result.4.now)))
        ≡ flat_map field_line (option_map_or (content_fields body) media.now []) }
{
    match media {
        Some(media) => (
            b"Content-Type: ",
            media.as_str().as_bytes(),
            b"\r\nContent-Length: ",
            digits,
            b"\r\n",
        ),
        None => (b"", b"", b"", b"", b""),
    }
}

// All pieces of the request, where `digits` write the length of its body.
fn all_pieces<'a>(root: &'a Root, ask: &'a Ask, digits: &'a [u8]) -> [&'a [u8]; 18]
    requires { digits.now ≡ decimal (length ask.now.body) }
    ensures request_pieces { flat_map (λ piece. piece.now) result ≡ request_bytes root.now ask.now }
{
    let (user_name, user, user_end) = user_line(&ask.user);
    let (type_name, media, length_name, length, length_end) = content_lines(&ask.media, digits);
    [
        ask.method.as_str().as_bytes(),
        b" ",
        root.path().as_bytes(),
        b"/",
        ask.path.as_str().as_bytes(),
        b" HTTP/1.1\r\nHost: ",
        root.authority().as_bytes(),
        b"\r\n",
        user_name,
        user,
        user_end,
        type_name,
        media,
        length_name,
        length,
        length_end,
        b"Connection: close\r\n\r\n",
        ask.body.as_slice(),
    ]
}

// Writes all pieces through an empty write buffer.
fn write_all_pieces<S: Sink>(
    sink: &mut S,
    write_buffer: &mut WriteBuffer,
    pieces: &[&[u8]],
) -> Result<(), Failed>
    requires { write_buffer.old ≡ [] }
    ensures all_or_prefix { WritesAll (S.state sink.old).taken (S.state sink.new).taken result
        (flat_map (λ piece. piece.now) pieces.now) }
    ensures only_writes { OnlyWrites (S.state sink.old) (S.state sink.new) result }
{
    write_pieces(sink, write_buffer, pieces)?;
    flush(sink, write_buffer)
}

/// Writes the request; one that fits into a `WriteBuffer` is written in one piece. Does not
/// allocate.
///
/// # Errors
/// `Failed` where a write failed; the sink then took a proper prefix of the request, and its count
/// of such faults rose.
pub fn write_request<S: Sink>(sink: &mut S, root: &Root, ask: &Ask) -> Result<(), Failed>
    requires { IsLawfulAsk ask.now }
    ensures all_or_prefix { WritesAll (S.state sink.old).taken (S.state sink.new).taken result
        (request_bytes root.now ask.now) }
    ensures only_writes { OnlyWrites (S.state sink.old) (S.state sink.new) result }
{
    let mut buffer = Buffer::new();
    let digits = buffer.format(ask.body.len()).as_bytes();
    write_all_pieces(
        sink,
        &mut WriteBuffer::new(),
        &all_pieces(root, ask, digits),
    )
}
