// A server serves some bytes as one connection.
ghost use Rattle.server_peer.specs.inner.ReplyBuffers.{FillsReplyBuffer};

use crate::server_end::ServerEnd;
use std::alloc::Global;
use watchers::Watcher;
use xcap_server::{Server, serve_connection};

// The number of reply bytes that were kept, and whether there are more.
#[derive(Clone, Copy, PartialEq, Eq)]
pub(crate) struct Replied {
    pub(crate) held: usize,
    pub(crate) is_over: bool,
}

// Serves these bytes as one connection. The front of the replies is kept, as far as it fits into
// `room`. No watcher is notified.
pub(crate) fn reply_to(alloc: Global, server: &mut Server, asked: &[u8], room: &mut [u8]) -> Replied
    ensures replies_to_bytes { FillsReplyBuffer server.old server.new asked.now room.old
        (record { room = room.new; held = result.held; is_over = result.is_over }) }
{
    server.store().represents_valid_state();
    let mut end = ServerEnd::new(asked, room);
    let mut watchers: Vec<Box<dyn Watcher>> = Vec::new(alloc);
    serve_connection(server, &mut end, &mut watchers);
    Replied {
        held: end.held,
        is_over: end.is_over,
    }
}
