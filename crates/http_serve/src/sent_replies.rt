// Sends replies on a connection.
ghost use Rattle.std.specs.Prelude.{◌≡◌, []};
ghost use Rattle.xcap_io.specs.StreamStates.{DiffersByWrites};
ghost use Rattle.http_serve.specs.inner.OpenFaultCounts.{CountsFaultOfEnding};
ghost use Rattle.http_serve.specs.inner.SentReplies.{SendsReply, ending_after};

use http_wire::{CloseReason, LentReply, write_lent_through, write_reply_through};
use reply_text::Reply;
use xcap_io::{Failed, Line, Sink, WriteBuffer};

// Why the connection ends after the write of a reply, or None where it goes on.
fn ending_after(written: Result<(), Failed>, closes: bool) -> Option<CloseReason>
    ensures exact { result ≡ ending_after written closes }
{
    match written {
        Err(Failed) => Some(CloseReason::WriteFailed),
        Ok(()) => {
            if closes {
                return Some(CloseReason::Closed);
            }
            None
        }
    }
}

/// Writes a reply through an empty write buffer, which is empty again afterwards. None where the
/// connection goes on. Does not allocate.
pub(crate) fn send_reply<S: Sink>(
    sink: &mut S,
    write_buffer: &mut WriteBuffer,
    reply: &Reply,
) -> Option<CloseReason>
    requires empty { write_buffer.old ≡ [] }
    ensures sends { SendsReply result reply.now (S.state sink.old).taken (S.state sink.new).taken }
    ensures counts_faults { CountsFaultOfEnding result (S.state sink.old) (S.state sink.new) }
    ensures only_writes { DiffersByWrites (S.state sink.old) (S.state sink.new) }
    ensures buffer_emptied { write_buffer.new ≡ [] }
{
    let written = write_reply_through(sink, write_buffer, reply);
    ending_after(written, reply.closes())
}

/// Writes a reply whose body is lent, as `send_reply` does.
pub(crate) fn send_lent<S: Sink>(
    sink: &mut S,
    write_buffer: &mut WriteBuffer,
    reply: &LentReply<'_>,
) -> Option<CloseReason>
    requires empty { write_buffer.old ≡ [] }
    ensures sends { SendsReply result reply.now (S.state sink.old).taken (S.state sink.new).taken }
    ensures counts_faults { CountsFaultOfEnding result (S.state sink.old) (S.state sink.new) }
    ensures only_writes { DiffersByWrites (S.state sink.old) (S.state sink.new) }
    ensures buffer_emptied { write_buffer.new ≡ [] }
{
    let written = write_lent_through(sink, write_buffer, reply);
    ending_after(written, reply.closes())
}
