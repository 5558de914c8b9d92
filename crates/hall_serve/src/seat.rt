// The seat of an open connection.
ghost use Rattle.std.specs.Prelude.{◌≡◌, ◌==◌, ◌<◌, ◌≤◌, [], false, length, drop, take, min, IfOk};
ghost use Rattle.std.specs.Prelude.{MatchOption};
ghost use Rattle.std.specs.Option.{option_map_or};
ghost use Rattle.reply_text.specs.ReplyHeads.{reply_bytes};
ghost use Rattle.http_feed.specs.Feeds.{with_bytes};
ghost use Rattle.hall_serve.specs.inner.NewSeats.{new_seat};
ghost use Rattle.hall_serve.specs.inner.SeatTurns.{IsItemOf, IsSeatAfter, IsSameSeat};

use halls::ConnectionId;
use http_feed::{Asked, RequestFeed};
use http_wire::reader_parts::MAX_HELD_BYTES;
use reply_text::Reply;
use std::alloc::{AllocError, Global};
use std::marker::Model;

/// An open connection: the bytes that it gave and that are not used yet, and the last reply
/// with the number of its bytes that are written.
#[derive(Drop)]
pub struct Seat {
    id: ConnectionId,
    feed: RequestFeed,
    reply: Option<Reply>,
    written: usize,
    closing: bool,
    ended: bool,
}

impl Model for Seat {
    ghost use Rattle.std.specs.Prelude.{[], ◌≤◌, drop, length};
    ghost use Rattle.std.specs.Option.{option_map_or};
    ghost use Rattle.reply_text.specs.ReplyHeads.{reply_bytes};
    ghost use Rattle.hall_serve.specs.Seats.{SeatState};

    ghost Value = { SeatState };

    ghost view = { λ s. record {
      id = s.id;
      feed = s.feed;
      pending = drop s.written (option_map_or reply_bytes s.reply []);
      closing = s.closing;
      ended = s.ended;
    } };

    ghost invariant = { λ s. s.written ≤ length (option_map_or reply_bytes s.reply []) };
}

// How many bytes a reply has; 0 where there is none.
fn reply_len(reply: &Option<Reply>) -> usize
    ensures exact { result ≡ length (option_map_or reply_bytes reply.now []) }
{
    match reply {
        Some(reply) => reply.head().len() + reply.body().len(),
        None => 0,
    }
}

// Copies bytes from the front as far as there is room, and returns how many.
fn copy_front(bytes: &[u8], buf: &mut [u8]) -> usize
    ensures as_many { result ≡ min (length bytes.now) (length buf.old) }
    ensures copied { take result buf.new ≡ take result bytes.now }
    ensures others_unchanged { drop result buf.new ≡ drop result buf.old }
{
    let count = bytes.len().min(buf.len());
    buf[..count].copy_from_slice(&bytes[..count]);
    count
}

impl Seat {
    /// The seat of a connection that has just begun. Does not allocate.
    pub fn new(alloc: Global, id: ConnectionId) -> Seat
        ensures exact { result ≡ new_seat id }
    {
        Seat {
            id,
            feed: RequestFeed::new(alloc),
            reply: None,
            written: 0,
            closing: false,
            ended: false,
        }
    }

    pub fn id(&self) -> ConnectionId
        ensures exact { result ≡ self.now.id }
    {
        self.id
    }

    pub fn is_closing(&self) -> bool
        ensures exact { result ≡ self.now.closing }
    {
        self.closing
    }

    // How many bytes of the last reply are pending.
    pub fn pending_len(&self) -> usize
        ensures exact { result ≡ length self.now.pending }
    {
        match &self.reply {
            Some(reply) => reply.head().len() + reply.body().len() - self.written,
            None => 0,
        }
    }

    // Copies the bytes that are pending as far as there is room, and returns how many.
    pub fn copy_pending(&self, buf: &mut [u8]) -> usize
        ensures as_many { result ≡ min (length self.now.pending) (length buf.old) }
        ensures copied { take result buf.new ≡ take result self.now.pending }
    {
        let Some(reply) = &self.reply else {
            return 0;
        };
        let head = reply.head();
        if self.written >= head.len() {
            return copy_front(&reply.body()[self.written - head.len()..], buf);
        }
        let from_head = copy_front(&head[self.written..], buf);
        from_head + copy_front(reply.body(), &mut buf[from_head..])
    }

    // This many more bytes of the last reply are written.
    pub fn note_written(&mut self, count: usize)
        requires { count ≤ length self.old.pending }
        ensures fewer_pending { IsSeatAfter self.old self.old.feed.reader
            (drop count self.old.pending) self.old.ended self.new }
    {
        let len = reply_len(&self.reply);
        let sum = self.written + count;
        let written = sum.min(len);
        self.written = written;
    }

    // Allocates for at most `wanted` more bytes of the connection, and returns for how many.
    pub fn reserve(&mut self, wanted: usize) -> Result<usize, AllocError>
        requires unspent { self.old.feed.reader.spent ≡ false }
        requires some_wanted { 0 < wanted }
        requires not_full { self.old.feed.buffer.filled < MAX_HELD_BYTES }
        ensures some_room { IfOk result
            (λ room. (0 < room) × (room ≤ wanted) × (self.new.feed.buffer.room ≡ room)) }
        ensures same_seat { IsSameSeat self.old self.new }
    {
        self.feed.reserve(wanted)
    }

    // A read gave these bytes, for which there is room.
    pub fn note_read(&mut self, bytes: &[u8])
        requires { length bytes.now ≤ self.old.feed.buffer.room }
        ensures exact { IsSeatAfter self.old (with_bytes self.old.feed.reader bytes.now)
            self.old.pending (length bytes.now == 0) self.new }
    {
        self.feed.give(bytes);
        self.ended = bytes.is_empty();
    }

    // A read gave nothing. Frees the memory where no bytes are held, and returns whether none are.
    pub fn release(&mut self) -> bool
        ensures same_seat { IsSameSeat self.old self.new }
    {
        self.feed.release();
        self.feed.is_empty()
    }

    // The next item of the bytes held, or none if none is complete and more may be given.
    pub fn next_item(&mut self, alloc: Global) -> Result<Option<Asked>, AllocError>
        requires unspent { self.old.feed.reader.spent ≡ false }
        ensures first_item { IsItemOf self.old.ended self.old.feed.reader result
            self.new.feed.reader }
        ensures not_full { IfOk result (λ next. MatchOption next
            (self.new.feed.buffer.filled < MAX_HELD_BYTES) (λ _. Unit)) }
        ensures only_feed { IsSeatAfter self.old self.new.feed.reader self.old.pending
            self.old.ended self.new }
    {
        if self.ended {
            let asked = self.feed.next_at_end(alloc)?;
            return Ok(Some(asked));
        }
        self.feed.next(alloc)
    }

    // This reply is pending, of which no byte is written.
    pub fn set_reply(&mut self, reply: Reply)
        ensures pending { self.new.pending ≡ reply_bytes reply }
        ensures closing { self.new.closing ≡ reply.closes }
        ensures same_id { self.new.id ≡ self.old.id }
        ensures same_feed { self.new.feed ≡ self.old.feed }
        ensures same_end { self.new.ended ≡ self.old.ended }
    {
        self.closing = reply.closes();
        self.reply = Some(reply);
        self.written = 0;
    }
}
