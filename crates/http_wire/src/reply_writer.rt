// Writes replies to a connection.
ghost use Rattle.std.specs.Prelude.{◌≡◌, [], ◌++◌, OnOk};
ghost use Rattle.xcap_io.specs.StreamStates.{OnlyWrites};
ghost use Rattle.xcap_io.specs.StreamWrites.{WritesAll};
ghost use Rattle.reply_text.specs.ReplyHeads.{reply_bytes};

use crate::lent_reply::LentReply;
use reply_text::Reply;
use tree_print::LentPrint;
use xcap_io::{Failed, Line, Sink, WriteBuffer, flush, put};

// Writes a head and a body through an empty write buffer.
fn write_head_and_body<S: Sink>(
    sink: &mut S,
    write_buffer: &mut WriteBuffer,
    head: &[u8],
    body: &LentPrint<'_>,
) -> Result<(), Failed>
    requires { write_buffer.old ≡ [] }
    ensures all_or_prefix { WritesAll (S.state sink.old).taken (S.state sink.new).taken result
        (head.now ++ body.now) }
    ensures only_writes { OnlyWrites (S.state sink.old) (S.state sink.new) result }
    ensures leaves_nothing_gathered { OnOk result (write_buffer.new ≡ []) }
{
    put(sink, write_buffer, head)?;
    body.write(sink, write_buffer)?;
    flush(sink, write_buffer)
}

// `write_head_and_body`, which leaves the buffer empty, whatever is returned.
fn write_and_clear<S: Sink>(
    sink: &mut S,
    write_buffer: &mut WriteBuffer,
    head: &[u8],
    body: &LentPrint<'_>,
) -> Result<(), Failed>
    requires { write_buffer.old ≡ [] }
    ensures all_or_prefix { WritesAll (S.state sink.old).taken (S.state sink.new).taken result
        (head.now ++ body.now) }
    ensures only_writes { OnlyWrites (S.state sink.old) (S.state sink.new) result }
    ensures buffer_emptied { write_buffer.new ≡ [] }
{
    if let Err(failed) = write_head_and_body(sink, write_buffer, head, body) {
        *write_buffer = WriteBuffer::new();
        return Err(failed);
    }
    Ok(())
}

/// Writes the reply through an empty write buffer, which is empty again afterwards, whatever is
/// returned: in one write if the reply fits the buffer. Does not allocate.
///
/// # Errors
/// `Failed` where a write failed; the sink then took a proper prefix of the reply, and its counter
/// of write faults rose.
pub fn write_reply_through<S: Sink>(
    sink: &mut S,
    write_buffer: &mut WriteBuffer,
    reply: &Reply,
) -> Result<(), Failed>
    requires empty { write_buffer.old ≡ [] }
    ensures all_or_prefix { WritesAll (S.state sink.old).taken (S.state sink.new).taken result
        (reply_bytes reply.now) }
    ensures only_writes { OnlyWrites (S.state sink.old) (S.state sink.new) result }
    ensures buffer_emptied { write_buffer.new ≡ [] }
{
    let body = LentPrint::made(reply.body());
    write_and_clear(sink, write_buffer, reply.head(), &body)
}

/// Writes a reply whose body is lent, as `write_reply_through` does.
///
/// # Errors
/// `Failed` where a write failed; the sink then took a proper prefix of the reply, and its counter
/// of write faults rose.
pub fn write_lent_through<S: Sink>(
    sink: &mut S,
    write_buffer: &mut WriteBuffer,
    reply: &LentReply<'_>,
) -> Result<(), Failed>
    requires empty { write_buffer.old ≡ [] }
    ensures all_or_prefix { WritesAll (S.state sink.old).taken (S.state sink.new).taken result
        (reply_bytes reply.now) }
    ensures only_writes { OnlyWrites (S.state sink.old) (S.state sink.new) result }
    ensures buffer_emptied { write_buffer.new ≡ [] }
{
    write_and_clear(sink, write_buffer, reply.head(), reply.body())
}

/// Writes the reply, in one write if it fits a `WriteBuffer`. Does not allocate.
///
/// # Errors
/// `Failed` where a write failed; the sink then took a proper prefix of the reply, and its counter
/// of write faults rose.
pub fn write_reply<S: Sink>(sink: &mut S, reply: &Reply) -> Result<(), Failed>
    ensures all_or_prefix { WritesAll (S.state sink.old).taken (S.state sink.new).taken result
        (reply_bytes reply.now) }
    ensures only_writes { OnlyWrites (S.state sink.old) (S.state sink.new) result }
{
    let mut write_buffer = WriteBuffer::new();
    write_reply_through(sink, &mut write_buffer, reply)
}

/// Writes a reply whose body is lent, in one write if it fits a `WriteBuffer`. Does not allocate.
///
/// # Errors
/// `Failed` where a write failed; the sink then took a proper prefix of the reply, and its counter
/// of write faults rose.
pub fn write_lent<S: Sink>(sink: &mut S, reply: &LentReply<'_>) -> Result<(), Failed>
    ensures all_or_prefix { WritesAll (S.state sink.old).taken (S.state sink.new).taken result
        (reply_bytes reply.now) }
    ensures only_writes { OnlyWrites (S.state sink.old) (S.state sink.new) result }
{
    let mut write_buffer = WriteBuffer::new();
    write_lent_through(sink, &mut write_buffer, reply)
}
