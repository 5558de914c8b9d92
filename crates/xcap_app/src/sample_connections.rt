// The bytes of the connections of a sample.
ghost use Rattle.std.specs.Prelude.{◌≡◌, ◌+◌, ◌≤◌, IfOk};
ghost use Rattle.xcap_app.specs.SampleRequests.{all_connections, requests_from};

use crate::sample_requests::request_with_number;
use http_wire::MAX_REQUESTS;
use std::alloc::{AllocError, Global};
use xcap_io::Bytes;

// The greatest number of requests of a connection.
const MAX_PER_CONNECTION: u64 = MAX_REQUESTS as u64;

// The bytes of `count` requests, from the request `first` on.
fn build_connection(alloc: Global, first: u64, count: u64) -> Result<Bytes, AllocError>
    requires within_max { first + count ≤ 8589934592 }
    ensures ok { IfOk result (λ bytes. bytes ≡ requests_from first count) }
{
    let mut bytes = Bytes::new(alloc);
    let mut made = 0;
    'requests: while made < count {
        let text = request_with_number(alloc, first + made)?;
        bytes.extend(text.as_str().as_bytes())?;
        made += 1;
    }
    Ok(bytes)
}

// The bytes of all connections of this many requests.
pub(crate) fn build_connections(alloc: Global, requests: u64) -> Result<Vec<Bytes>, AllocError>
    requires within_max { requests ≤ 4294967295 }
    ensures ok { IfOk result (λ all. all.items ≡ all_connections requests) }
{
    let count = (requests + (MAX_PER_CONNECTION - 1)) / MAX_PER_CONNECTION;
    let mut all = Vec::new(alloc);
    let mut number = 0;
    'connections: while number < count {
        let first = number * MAX_PER_CONNECTION;
        all.push(build_connection(
            alloc,
            first,
            MAX_PER_CONNECTION.min(requests.saturating_sub(first)),
        )?)?;
        number += 1;
    }
    Ok(all)
}
