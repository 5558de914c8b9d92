// Scans for a head at the front of the bytes (RFC 9112, sections 2 to 5).
ghost use Rattle.std.specs.Prelude.{◌≡◌, ◌<◌, ◌≤◌, length, take, IfOk, OnErr};
ghost use Rattle.xcap_io.specs.StreamStates.{OnlyReads};
ghost use Rattle.http_wire.specs.Heads.{HasNoHead};
ghost use Rattle.http_wire.specs.inner.ReadBuffer.{IsHeadScanResult, BuffersMore, HasHeadOrNone};

use crate::limits::{MAX_FIELD_LINES, MAX_HEAD_BYTES};
use crate::request_reader::{ReadBuffer, ReadFault};
use httparse::Status;
use httparse::spans::{HeaderSpan, RequestSpans, parse_request};
use xcap_io::{Line, Source};

// The result of scanning for a head.
#[derive(Clone, Copy)]
pub enum HeadScan {
    Head(RequestSpans),
    // There is no complete head yet; more bytes may complete one.
    Open,
    // No head is there, whatever follows.
    Hopeless,
}

// Scans the bytes from their beginning.
pub fn scan_head(bytes: &[u8], headers: &mut [HeaderSpan]) -> HeadScan
    requires { length headers.old ≡ MAX_FIELD_LINES }
    ensures head_of_bytes { IsHeadScanResult bytes.now headers.new result }
{
    let start = &bytes[..bytes.len().min(MAX_HEAD_BYTES)];
    match parse_request(start, headers) {
        Ok(Status::Complete(spans)) => HeadScan::Head(spans),
        Ok(Status::Partial) if bytes.len() < MAX_HEAD_BYTES => HeadScan::Open,
        Err(_) if bytes.is_empty() => HeadScan::Open,
        _ => HeadScan::Hopeless,
    }
}

// Scans again after more bytes. A head ends with a line feed: if the first `seen` bytes are no
// head and no line feed follows them, there is still none.
pub fn rescan_head(bytes: &[u8], seen: usize, headers: &mut [HeaderSpan]) -> HeadScan
    requires slots { length headers.old ≡ MAX_FIELD_LINES }
    requires inside { seen ≤ length bytes.now }
    requires no_head_yet { HasNoHead (take seen bytes.now) }
    ensures head_of_all { IsHeadScanResult bytes.now headers.new result }
{
    if seen > 0 && bytes.len() < MAX_HEAD_BYTES && !bytes[seen..].contains(&b'\n') {
        return HeadScan::Open;
    }
    scan_head(bytes, headers)
}

// Reads until a head is there, or none is possible.
pub fn read_head<S: Source>(
    source: &mut S,
    read_buffer: &mut ReadBuffer,
    headers: &mut [HeaderSpan],
) -> Result<Option<RequestSpans>, ReadFault>
    requires { length headers.old ≡ MAX_FIELD_LINES }
    ensures gains_source_bytes { BuffersMore read_buffer.old read_buffer.new
        (S.state source.old).inward
        (S.state source.new).inward }
    ensures head_or_none { IfOk result
        (HasHeadOrNone read_buffer.new (S.state source.new).inward headers.new) }
    ensures err_before_head { OnErr result (HasNoHead read_buffer.new) }
    ensures only_reads { OnlyReads (S.state source.old) (S.state source.new) result }
{
    let mut seen = 0;
    'looking: loop {
        match rescan_head(read_buffer.bytes(), seen, headers) {
            HeadScan::Head(spans) => return Ok(Some(spans)),
            HeadScan::Hopeless => return Ok(None),
            HeadScan::Open => {
                seen = read_buffer.len();
                if !read_buffer.fill(source)? {
                    return Ok(None);
                }
            }
        }
    }
}
