// The bytes written on the current connection.
ghost use Rattle.std.specs.Prelude.{◌≡◌, ◌≤◌, ◌-◌, [], ◌++◌, min, length, take, drop, IfOk};

use std::alloc::{AllocError, Global};
use std::marker::Model;

// The bytes written, at most as many as the buffer has, and how many of them the server has
// served.
#[derive(Drop)]
pub(crate) struct WrittenBytes {
    room: Vec<u8>,
    len: usize,
    served: usize,
}

impl Model for WrittenBytes {
    ghost use Rattle.std.specs.Prelude.{◌≤◌, length, take};
    ghost use Rattle.server_peer.specs.BufferStates.{WrittenState};

    ghost Value = { WrittenState };

    ghost view = { λ w. record {
      bytes = take w.len w.room.items;
      served = w.served;
      room = length w.room.items;
    } };

    ghost invariant = { λ w. (w.len ≤ length w.room.items) × (w.served ≤ w.len) };
}

impl WrittenBytes {
    // No bytes, and a buffer of `room` bytes.
    pub(crate) fn new(alloc: Global, room: usize) -> Result<WrittenBytes, AllocError>
        ensures nothing_is_written { IfOk result
            (λ written. written ≡ record { bytes = []; served = 0; room = room }) }
    {
        Ok(WrittenBytes {
            room: vec![in alloc; 0; room]?,
            len: 0,
            served: 0,
        })
    }

    // Appends the bytes that fit, from the first on, and returns their number.
    pub(crate) fn add(&mut self, piece: &[u8]) -> usize
        ensures exact { result ≡ min (length piece.now) (self.old.room - length self.old.bytes) }
        ensures within_capacity { length self.old.bytes ≤ self.old.room }
        ensures appends_taken { self.new
            ≡ record self.old { bytes = self.old.bytes ++ take result piece.now } }
    {
        let count = piece.len().min(self.room.len() - self.len);
        self.room[self.len..self.len + count].copy_from_slice(&piece[..count]);
        self.len += count;
        count
    }

    // The bytes that the server hasn't served.
    pub(crate) fn unserved_bytes(&self) -> &[u8]
        ensures exact { result.now ≡ drop self.now.served self.now.bytes }
    {
        &self.room[self.served..self.len]
    }

    // Marks all bytes as served.
    pub(crate) fn set_served(&mut self)
        ensures exact { self.new ≡ record self.old { served = length self.old.bytes } }
    {
        self.served = self.len;
    }

    // Drops the bytes.
    pub(crate) fn clear(&mut self)
        ensures nothing_is_written { self.new ≡ record self.old { bytes = []; served = 0 } }
    {
        self.len = 0;
        self.served = 0;
    }
}
