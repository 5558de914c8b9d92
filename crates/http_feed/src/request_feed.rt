// The feed of one connection.
ghost use Rattle.std.specs.Prelude.{◌≡◌, ◌+◌, ◌<◌, ◌≤◌, ◌↔◌, [], true, false, length, Ok, Some};
ghost use Rattle.std.specs.Prelude.{OnOk, IsTrue, IfOk, MatchOption};
ghost use Rattle.http_feed.specs.Feeds.{FeedState, fresh_feed, with_bytes, MakesRoom};
ghost use Rattle.http_feed.specs.Feeds.{IsNextOf, IsLastOf};
ghost use Rattle.http_feed.specs.inner.Buffers.{spent_feed};
ghost use Rattle.http_feed.specs.inner.Places.{LeavesRequests, IsCounted};

use crate::chunk_data::ChunkData;
use crate::item_reader::{ReadPlace, ReadStep, read_item};
use crate::read_buffer::ReadBuffer;
use http_wire::Asked;
use http_wire::reader_parts::MAX_HELD_BYTES;
use std::alloc::{AllocError, Global};
use std::marker::Model;
use xcap_io::TrafficLog;

/// The requests of one connection, of whose bytes it is given more as they come. It holds those
/// that were given and not used yet. One that holds none has no memory.
///
/// A server calls `reserve`, reads at most as many bytes, and gives them; then it calls `next`
/// until that returns none, and, once a read found the end of the bytes, `next_at_end`.
#[derive(Drop)]
pub struct RequestFeed {
    held: ReadBuffer,
    chunks: ChunkData,
    place: ReadPlace,
    requests: usize,
    spent: bool,
    // for contracts alone: what was given and not used yet
    given: TrafficLog,
}

impl Model for RequestFeed {
    ghost use Rattle.std.specs.Prelude.{◌+◌, length};
    ghost use Rattle.http_feed.specs.Feeds.{FeedState};
    ghost use Rattle.http_feed.specs.inner.Places.{ArePartsOfFeed};

    ghost Value = { FeedState };

    ghost view = { λ f. record {
      reader = record {
        held = f.given.history.now.given;
        requests = f.requests;
        spent = f.spent;
      };
      buffer = record {
        filled = length f.held.bytes;
        room = f.held.room;
        capacity = f.held.capacity + f.chunks.capacity;
      };
    } };

    ghost invariant = { λ f.
        ArePartsOfFeed f.place f.held f.chunks
        (record {
          held = f.given.history.now.given;
          requests = f.requests;
          spent = f.spent;
        }) };
}

impl RequestFeed {
    /// The feed of a new connection. Does not allocate.
    pub fn new(alloc: Global) -> RequestFeed
        ensures exact { result ≡ fresh_feed }
    {
        RequestFeed {
            held: ReadBuffer::new(alloc),
            chunks: ChunkData::new(alloc),
            place: ReadPlace::Head { seen: 0 },
            requests: 0,
            spent: false,
            given: TrafficLog::new(),
        }
    }

    /// Whether all bytes given were used, so that the connection is between two requests. Does not
    /// allocate.
    pub fn is_empty(&self) -> bool
        ensures exact { IsTrue result ↔ (self.now.reader.held ≡ []) }
    {
        self.held.is_empty()
    }

    /// Allocates for `wanted` more bytes, or as many as the limit allows, and returns how many may
    /// be given: at least one, if `wanted` is not 0 and `next` returned none.
    ///
    /// # Errors
    /// `AllocError` when out of memory. The feed is as it was.
    pub fn reserve(&mut self, wanted: usize) -> Result<usize, AllocError>
        ensures up_to_limit { MakesRoom self.old wanted result self.new }
    {
        if self.spent {
            return Ok(0);
        }
        self.held.reserve(wanted)
    }

    /// Gives the next bytes of the connection, for which there is room. Does not allocate.
    pub fn give(&mut self, bytes: &[u8])
        requires { length bytes.now ≤ self.old.buffer.room }
        ensures held_after { self.new.reader ≡ with_bytes self.old.reader bytes.now }
        ensures filled { self.new.buffer.filled ≡ self.old.buffer.filled + length bytes.now }
        ensures less_room { self.new.buffer.room + length bytes.now ≡ self.old.buffer.room }
        ensures at_most_limit { 0 < length bytes.now
            → self.new.buffer.filled + self.new.buffer.room ≤ MAX_HELD_BYTES }
    {
        if bytes.is_empty() {
            return;
        }
        self.held.add(bytes);
        self.given.record_read(bytes);
    }

    /// Frees the memory if no bytes are held, as after a read for which there was room and that
    /// gave none.
    pub fn release(&mut self)
        ensures same_reader { self.new.reader ≡ self.old.reader }
        ensures freed { self.new.reader.held ≡ [] → self.new.buffer.capacity ≡ 0 }
        ensures no_more_filled { self.new.buffer.filled ≤ self.old.buffer.filled }
    {
        if self.held.is_empty() {
            self.held.clear();
            self.chunks.clear();
        }
    }

    // Spends the feed after this many requests.
    fn finish(&mut self, requests: usize)
        ensures exact { self.new ≡ spent_feed requests }
    {
        self.held.clear();
        self.chunks.clear();
        self.place = ReadPlace::Head { seen: 0 };
        self.given.record_begin();
        self.requests = requests;
        self.spent = true;
    }

    // Counts a request. After any other item, and a request that closes, the feed is spent.
    fn count(&mut self, asked: &Asked)
        requires open { self.old.reader.spent ≡ false }
        requires few { LeavesRequests self.old.reader.requests asked.now }
        ensures counted { IsCounted self.old.reader asked.now self.new.reader }
        ensures freed { self.new.reader.held ≡ [] → self.new.buffer.capacity ≡ 0 }
    {
        match asked {
            Asked::Request(request) if request.closes => self.finish(self.requests + 1),
            Asked::Request(_) => {
                self.requests += 1;
                self.release();
            }
            _ => self.finish(self.requests),
        }
    }

    /// Returns the first item of the bytes held, however they were cut (RFC 9112), or none if none
    /// is complete in them. After every item but a request that doesn't close the feed is spent: it
    /// returns `End`, and holds nothing.
    ///
    /// # Errors
    /// `AllocError` when out of memory for the data of a chunked body. Nothing is decided then, and
    /// the call can be made again. (`Asked::NoMemory` comes in place of a request, and spends the
    /// feed.)
    pub fn next(&mut self, alloc: Global) -> Result<Option<Asked>, AllocError>
        ensures spent_gives_none { self.old.reader.spent ≡ true
            → (result ≡ Ok (Some Asked.End)) × (self.new ≡ self.old) }
        ensures first_item { self.old.reader.spent ≡ false
            → IsNextOf self.old.reader result self.new.reader }
        ensures room_left { IfOk result
            (λ next. MatchOption next (self.new.buffer.filled < MAX_HELD_BYTES) (λ _. Unit)) }
        ensures freed { OnOk result (self.new.reader.held ≡ [] → self.new.buffer.capacity ≡ 0) }
    {
        if self.spent {
            return Ok(Some(Asked::End));
        }
        let step = read_item(
            alloc,
            &mut self.held,
            &mut self.chunks,
            self.place,
            self.requests,
        )?;
        match step {
            ReadStep::Open(place) => {
                self.place = place;
                self.release();
                Ok(None)
            }
            ReadStep::Item(asked) => {
                self.chunks.clear();
                self.place = ReadPlace::Head { seen: 0 };
                self.given.record_begin();
                self.given.record_read(self.held.bytes());
                self.count(&asked);
                Ok(Some(asked))
            }
        }
    }

    /// Returns the next item where a read found the end of the connection's bytes: the first item
    /// of those held, or `End` if there are none, or `Bad` if none is complete in them. After the
    /// last one the feed is spent.
    ///
    /// # Errors
    /// `AllocError`, as for `next`.
    pub fn next_at_end(&mut self, alloc: Global) -> Result<Asked, AllocError>
        ensures spent_gives_none { self.old.reader.spent ≡ true
            → (result ≡ Ok Asked.End) × (self.new ≡ self.old) }
        ensures last_item { self.old.reader.spent ≡ false
            → IsLastOf self.old.reader result self.new.reader }
        ensures freed { OnOk result (self.new.reader.held ≡ [] → self.new.buffer.capacity ≡ 0) }
    {
        if let Some(asked) = self.next(alloc)? {
            return Ok(asked);
        }
        let asked = if self.held.is_empty() {
            Asked::End
        } else {
            Asked::Bad
        };
        self.finish(self.requests);
        Ok(asked)
    }
}
