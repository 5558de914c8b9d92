// Reads a chunked body from the source, after its head.
ghost use Rattle.std.specs.Prelude.{◌≤◌, length};
ghost use Rattle.xcap_io.specs.StreamStates.{OnlyReads};
ghost use Rattle.http_wire.specs.inner.ReadBuffer.{DecodesBody};

use crate::chunk_decoder::{ChunkState, Decoder};
use crate::limits::MAX_HEAD_BYTES;
use crate::request_reader::{ReadBuffer, ReadFault};
use xcap_io::{Line, Source};

// What reading a chunked body came to.
#[derive(Clone, Copy)]
pub enum DecodeResult {
    // The decoder has the body, which ends at this offset in the buffered bytes.
    Whole(usize),
    TooLong,
    Bad,
    // The input ended within the body.
    Cut,
}

// Decodes the body after a head of `head` bytes, as its bytes arrive. Decoded bytes leave the
// buffer.
pub fn decode_body<S: Source>(
    source: &mut S,
    read_buffer: &mut ReadBuffer,
    decoder: &mut Decoder,
    head: usize,
) -> Result<DecodeResult, ReadFault>
    requires inside { head ≤ length read_buffer.old }
    requires length_bounded { head ≤ MAX_HEAD_BYTES }
    ensures decodes_body { DecodesBody head
        (record { held = read_buffer.old; source = (S.state source.old).inward }) result
        decoder.new.body
        (record { held = read_buffer.new; source = (S.state source.new).inward }) }
    ensures only_reads { OnlyReads (S.state source.old) (S.state source.new) result }
{
    decoder.restart();
    let mut used = decoder.feed(&read_buffer.bytes()[head..]);
    'decoding: while !decoder.is_settled() {
        read_buffer.truncate(head);
        if !read_buffer.fill(source)? {
            return Ok(DecodeResult::Cut);
        }
        used = decoder.feed(&read_buffer.bytes()[head..]);
    }
    match decoder.stage() {
        ChunkState::Done => Ok(DecodeResult::Whole(head + used)),
        ChunkState::TooLong => Ok(DecodeResult::TooLong),
        _ => Ok(DecodeResult::Bad),
    }
}
