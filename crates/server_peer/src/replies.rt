// The server's replies on the current connection.
ghost use Rattle.std.specs.Prelude.{◌≡◌, ◌<◌, ◌≤◌, ◌^◌, ◌&&◌, ◌==◌, [], false, length, drop, IfOk};
ghost use Rattle.server_peer.specs.ServedBytes.{AddsReplies};

use crate::serve_bytes::reply_to;
use std::alloc::{AllocError, Global};
use std::marker::Model;
use xcap_server::Server;

// The bytes of replies that fit into the buffer, and whether there were more.
#[derive(Drop)]
pub(crate) struct Replies {
    room: Vec<u8>,
    held: usize,
    is_over: bool,
}

impl Model for Replies {
    ghost use Rattle.std.specs.Prelude.{◌≡◌, ◌≤◌, true, length, take};
    ghost use Rattle.server_peer.specs.BufferStates.{RepliesState};

    ghost Value = { RepliesState };

    ghost view = { λ r. record {
      bytes = take r.held r.room.items;
      more = r.is_over;
      room = length r.room.items;
    } };

    ghost invariant = { λ r.
        (r.held ≤ length r.room.items) × (r.is_over ≡ true → r.held ≡ length r.room.items) };
}

impl Replies {
    // No replies, and a buffer of `room` bytes.
    pub(crate) fn new(alloc: Global, room: usize) -> Result<Replies, AllocError>
        ensures nothing_is_replied { IfOk result
            (λ replies. replies ≡ record { bytes = []; more = false; room = room }) }
    {
        Ok(Replies {
            room: vec![in alloc; 0; room]?,
            held: 0,
            is_over: false,
        })
    }

    // Serves these bytes, and appends the replies.
    pub(crate) fn add(&mut self, alloc: Global, server: &mut Server, asked: &[u8])
        ensures adds_replies { AddsReplies server.old server.new asked.now self.old self.new }
        ensures within_capacity { length self.old.bytes ≤ self.old.room }
    {
        let replied = reply_to(alloc, server, asked, &mut self.room[self.held..]);
        self.held += replied.held;
        self.is_over |= replied.is_over;
    }

    // The bytes after the first `given`.
    pub(crate) fn replies_after(&self, given: usize) -> &[u8]
        requires inside { given ≤ length self.now.bytes }
        ensures exact { result.now ≡ drop given self.now.bytes }
        ensures fits_u64 { length self.now.bytes < 2 ^ 64 }
    {
        &self.room[given..self.held]
    }

    // Whether `given` bytes fill the buffer, and there were more.
    pub(crate) fn is_spent(&self, given: usize) -> bool
        requires inside { given ≤ length self.now.bytes }
        ensures exact { result ≡ (given == self.now.room) && self.now.more }
    {
        given == self.room.len() && self.is_over
    }

    // Drops the replies.
    pub(crate) fn clear(&mut self)
        ensures nothing_is_replied { self.new ≡ record self.old { bytes = []; more = false } }
    {
        self.held = 0;
        self.is_over = false;
    }
}
