//! Serves one connection to its end.
ghost use Rattle.std.specs.Prelude.{◌≡◌, ℕ, suc, ◌+◌, false, [], None, IfSome};
ghost use Rattle.xcap_io.specs.StreamStates.{DiffersByWrites};
ghost use Rattle.http_wire.specs.NextRequests.{fresh_request_reader};
ghost use Rattle.http_serve.specs.ServedStreams.{ServesStream};
ghost use Rattle.http_serve.specs.ItemAnswers.{AnswersNextRequest};
ghost use Rattle.http_serve.specs.inner.AskedRequests.{HasRequest};
ghost use Rattle.http_serve.specs.ItemAnswers.{IsNoneOrReadRequest};
ghost use Rattle.http_serve.specs.FaultCounts.{OnlyExchangesBytes};
ghost use Rattle.http_serve.specs.inner.OpenFaultCounts.{CountsFaultOfEnding};
ghost use Rattle.http_serve.specs.inner.ConnectionTurns.{KeepsOpen, ConnectionTurn};
ghost use Rattle.http_serve.specs.inner.SentReplies.{SendsAnswer};
ghost use Rattle.http_serve.specs.ReplyBytes.{StepsInBytes};

use crate::connection_buffers::ConnectionBuffers;
use crate::item_answers::{notify_of_edit, try_answer};
use crate::machine::Machine;
use crate::sent_replies::{send_lent, send_reply};
use http_wire::{Asked, CloseReason, LentReply, ReadFault, next_request};
use reply_text::Reply;
use std::alloc::AllocError;
use watchers::Watchers;
use xcap_io::{Line, Sink, Source, WriteBuffer};

// The reply that the machine lends to the reader's result, if it does.
fn lend_reply<'a, M: Machine>(machine: &'a M, asked: &Asked) -> Option<LentReply<'a>>
    requires request_read { IsNoneOrReadRequest asked.now }
    requires room_left { M.takes machine.now 1 }
    ensures request_answer { IfSome result
        (λ reply. AnswersNextRequest
        (StepsInBytes M.steps) machine.now asked.now reply None machine.now) }
{
    let Asked::Request(request) = asked else {
        return None;
    };
    match machine.answer_reading(request) {
        Ok(lent) => lent,
        Err(AllocError) => None,
    }
}

// Replies to a request that the machine had no memory to answer: with a body that the machine
// lends, if it does, else with the fixed 503.
fn reply_without_memory<M: Machine, S: Sink>(
    machine: &M,
    sink: &mut S,
    write_buffer: &mut WriteBuffer,
    asked: &Asked,
) -> Option<CloseReason>
    requires empty { write_buffer.old ≡ [] }
    requires is_request { HasRequest asked.now }
    requires request_read { IsNoneOrReadRequest asked.now }
    requires room_left { M.takes machine.now 1 }
    ensures sends_answer { SendsAnswer (StepsInBytes M.steps) machine.now asked.now result
        (S.state sink.old).taken (S.state sink.new).taken }
    ensures counts_faults { CountsFaultOfEnding result (S.state sink.old) (S.state sink.new) }
    ensures only_writes { DiffersByWrites (S.state sink.old) (S.state sink.new) }
    ensures buffer_emptied { write_buffer.new ≡ [] }
{
    match lend_reply(machine, asked) {
        Some(lent) => send_lent(sink, write_buffer, &lent),
        None => {
            let reply = Reply::fixed(503, true);
            send_reply(sink, write_buffer, &reply)
        }
    }
}

// Reads the next request by a reader that isn't spent, answers it, notifies the watchers, and
// replies. None where the connection goes on.
fn serve_next<M: Machine, L: Source + Sink, W: Watchers<M::Edit>>(
    machine: &mut M,
    buffers: &mut ConnectionBuffers,
    line: &mut L,
    watchers: &mut W,
) -> Option<CloseReason>
    requires open_still { buffers.old.request_reader.spent ≡ false }
    requires room_left { M.takes machine.old 1 }
    ensures makes_one_turn { ConnectionTurn (StepsInBytes M.steps) W.keeps result
        (record {
          request_reader = buffers.old.request_reader;
          machine = machine.old;
          stream = L.state line.old;
          watchers = watchers.old;
        })
        (record {
          request_reader = buffers.new.request_reader;
          machine = machine.new;
          stream = L.state line.new;
          watchers = watchers.new;
        }) }
    ensures goes_on { result ≡ None
        → KeepsOpen buffers.old.request_reader buffers.new.request_reader }
    ensures counts_faults { CountsFaultOfEnding result (L.state line.old) (L.state line.new) }
    ensures this_stream_alone { OnlyExchangesBytes (L.state line.old) (L.state line.new) }
    ensures takes_one_fewer { (n : ℕ) → M.takes machine.old (suc n) → M.takes machine.new n }
{
    let asked = match next_request(buffers.alloc, line, &mut buffers.request_reader) {
        Ok(asked) => asked,
        Err(ReadFault) => return Some(CloseReason::ReadFailed),
    };
    match try_answer(machine, &asked) {
        Ok(None) => Some(CloseReason::Closed),
        Ok(Some(answered)) => {
            notify_of_edit(watchers, &answered.edit);
            send_reply(line, &mut buffers.write_buffer, &answered.reply)
        }
        Err(AllocError) => {
            reply_without_memory(machine, line, &mut buffers.write_buffer, &asked)
        }
    }
}

// The turns of a new connection, until one ends it.
fn serve_requests<M: Machine, L: Source + Sink, W: Watchers<M::Edit>>(
    machine: &mut M,
    buffers: &mut ConnectionBuffers,
    line: &mut L,
    watchers: &mut W,
) -> CloseReason
    requires fresh { buffers.old.request_reader ≡ fresh_request_reader }
    requires room_left { M.takes machine.old 1000 }
    ensures serves_turns { ServesStream (StepsInBytes M.steps) W.keeps result
        (record { machine = machine.old; stream = L.state line.old; watchers = watchers.old })
        (record { machine = machine.new; stream = L.state line.new; watchers = watchers.new }) }
    ensures takes_on { (n : ℕ) → M.takes machine.old (n + 1000) → M.takes machine.new n }
{
    'turns: loop {
        if let Some(ended) = serve_next(machine, buffers, line, watchers) {
            return ended;
        }
    }
}

/// Serves a connection: each request is read, answered by the machine, reported to the watchers if
/// it made a change, and replied to, in this order, until a reply closes the connection, its bytes
/// end, or a read or a write fails. What is no request gets its fixed reply, and a request that
/// the machine has no memory for, and no lent reply to, gets the fixed 503; both close. After a
/// failed read there is no further reply.
/// Does not allocate before the first request. A connection has at most `MAX_REQUESTS` requests.
pub fn serve_stream<M: Machine, L: Source + Sink, W: Watchers<M::Edit>>(
    machine: &mut M,
    buffers: &mut ConnectionBuffers,
    line: &mut L,
    watchers: &mut W,
) -> CloseReason
    requires room_left { M.takes machine.old 1000 }
    ensures serves_stream { ServesStream (StepsInBytes M.steps) W.keeps result
        (record { machine = machine.old; stream = L.state line.old; watchers = watchers.old })
        (record { machine = machine.new; stream = L.state line.new; watchers = watchers.new }) }
    ensures takes_on { (n : ℕ) → M.takes machine.old (n + 1000) → M.takes machine.new n }
{
    buffers.request_reader.reset();
    serve_requests(machine, buffers, line, watchers)
}
