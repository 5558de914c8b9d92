// The head of a response at the front of bytes (RFC 9112, sections 2, 4 and 5).
ghost use Rattle.std.specs.Prelude.{◌≡◌, ◌<◌, ◌≤◌, length, take, IfOk, OnErr};
ghost use Rattle.xcap_io.specs.StreamStates.{DiffersByReads};
ghost use Rattle.http_wire.specs.inner.ReadBuffer.{BuffersMore};
ghost use Rattle.xcap_client.specs.inner.FillErrors.{CountsFillError};
ghost use Rattle.xcap_client.specs.ResponseHeads.{HasNoHead};
ghost use Rattle.xcap_client.specs.inner.ReadBuffer.{IsHeadScan, IsHeadOrNone};

use crate::read_buffer::ReadBuffer;
use crate::response_fault::FillError;
use http_wire::{MAX_FIELD_LINES, MAX_HEAD_BYTES};
use httparse::Status;
use httparse::spans::{HeaderSpan, ResponseSpans, parse_response};
use xcap_io::{Line, Source};

// The result of a search for a head at the front of some bytes.
#[derive(Clone, Copy)]
pub enum HeadScan {
    Head(ResponseSpans),
    // There is no head yet, and more bytes may make one.
    Open,
    // There is no head, whatever bytes follow.
    Hopeless,
}

fn scan_head(bytes: &[u8], headers: &mut [HeaderSpan]) -> HeadScan
    requires { length headers.old ≡ MAX_FIELD_LINES }
    ensures head_of_bytes { IsHeadScan bytes.now headers.new result }
{
    let start = &bytes[..bytes.len().min(MAX_HEAD_BYTES)];
    match parse_response(start, headers) {
        Ok(Status::Complete(spans)) => HeadScan::Head(spans),
        Ok(Status::Partial) if bytes.len() < MAX_HEAD_BYTES => HeadScan::Open,
        Err(_) => HeadScan::Hopeless,
        _ => HeadScan::Hopeless,
    }
}

// Scans again after a read. A head ends with a line feed: where the first bytes had no head, and
// no line feed came after them, there is still none.
fn rescan_head(bytes: &[u8], seen: usize, headers: &mut [HeaderSpan]) -> HeadScan
    requires slots { length headers.old ≡ MAX_FIELD_LINES }
    requires inside { seen ≤ length bytes.now }
    requires no_head_yet { HasNoHead (take seen bytes.now) }
    ensures head_of_all { IsHeadScan bytes.now headers.new result }
{
    if bytes.len() < MAX_HEAD_BYTES && !bytes[seen..].contains(&b'\n') {
        return HeadScan::Open;
    }
    scan_head(bytes, headers)
}

// Reads until there is a head, or there can be none.
pub fn read_head<S: Source>(
    source: &mut S,
    read_buffer: &mut ReadBuffer,
    headers: &mut [HeaderSpan],
) -> Result<Option<ResponseSpans>, FillError>
    requires { length headers.old ≡ MAX_FIELD_LINES }
    ensures gains_source_bytes { BuffersMore read_buffer.old read_buffer.new
        (S.state source.old).inward
        (S.state source.new).inward }
    ensures head_or_none { IfOk result
        (IsHeadOrNone read_buffer.new (S.state source.new).inward headers.new) }
    ensures err_before_head { OnErr result (HasNoHead read_buffer.new) }
    ensures only_reads { DiffersByReads (S.state source.old) (S.state source.new) }
    ensures faults_never_fall { CountsFillError (S.state source.old).read_faults
        (S.state source.new).read_faults result }
{
    let mut seen = 0;
    'looking: loop {
        match rescan_head(read_buffer.bytes(), seen, headers) {
            HeadScan::Head(spans) => return Ok(Some(spans)),
            HeadScan::Hopeless => return Ok(None),
            HeadScan::Open => {
                seen = read_buffer.len();
                if !read_buffer.fill(source)? {
                    return Ok(None);
                }
            }
        }
    }
}
