// A write buffer, so that a sink gets few large pieces.
ghost use Rattle.std.specs.Prelude.{◌≡◌, ◌-◌, ◌≤◌, [], ◌++◌, length, OnOk};
ghost use Rattle.xcap_io.specs.BufferedWrites.{BuffersBytes};

use crate::{Failed, Sink, write_all};
use std::marker::Model;

// The capacity in bytes.
const ROOM: usize = 8192;

/// Up to `ROOM` bytes that are not yet written to a sink. The sink is passed to each call; the
/// buffer does not allocate.
#[derive(Drop)]
pub struct WriteBuffer {
    bytes: [u8; 8192],
    held: usize,
}

impl Model for WriteBuffer {
    ghost use Rattle.std.specs.Prelude.{ℕ, ◌≤◌, List, take};

    ghost Value = { List ℕ };

    ghost view = { λ g. take g.held g.bytes };

    ghost invariant = { λ g. g.held ≤ 8192 };
}

impl WriteBuffer {
    /// An empty buffer.
    pub fn new() -> WriteBuffer
        ensures holds_nothing { result ≡ [] }
    {
        WriteBuffer {
            bytes: [0; 8192],
            held: 0,
        }
    }

    /// The buffered bytes.
    pub fn as_slice(&self) -> &[u8]
        ensures exact { result.now ≡ self.now }
    {
        &self.bytes[..self.held]
    }

    fn free_len(&self) -> usize
        ensures exact { result ≡ 8192 - length self.now }
    {
        ROOM - self.held
    }

    fn clear(&mut self)
        ensures exact { self.new ≡ [] }
    {
        self.held = 0;
    }

    fn append(&mut self, piece: &[u8])
        requires { length piece.now ≤ 8192 - length self.old }
        ensures exact { self.new ≡ self.old ++ piece.now }
    {
        let end = self.held + piece.len();
        self.bytes[self.held..end].copy_from_slice(piece);
        self.held = end;
    }
}

/// Writes the buffered bytes to the sink. After `Ok` the buffer is empty; after `Failed` a proper
/// prefix of them was taken.
#[tactic(auto, using(crate::proofs::BufferPieces::adding))]
pub fn flush<S: Sink>(sink: &mut S, write_buffer: &mut WriteBuffer) -> Result<(), Failed>
    ensures flushes_in_order { BuffersBytes
        (record { sink = S.state sink.old; held = write_buffer.old })
        (record { sink = S.state sink.new; held = write_buffer.new }) result [] }
    ensures leaves_nothing_gathered { OnOk result (write_buffer.new ≡ []) }
{
    write_all(sink, write_buffer.as_slice())?;
    write_buffer.clear();
    Ok(())
}

/// Buffers the piece, after writing out the buffered bytes where both do not fit. After `Failed` a
/// proper prefix of the buffered bytes and the piece was taken.
#[tactic(auto, using(crate::proofs::BufferPieces::adding))]
pub fn put<S: Sink>(
    sink: &mut S,
    write_buffer: &mut WriteBuffer,
    piece: &[u8],
) -> Result<(), Failed>
    ensures appends_piece { BuffersBytes
        (record { sink = S.state sink.old; held = write_buffer.old })
        (record { sink = S.state sink.new; held = write_buffer.new }) result piece.now }
{
    if piece.len() <= write_buffer.free_len() {
        write_buffer.append(piece);
        return Ok(());
    }
    flush(sink, write_buffer)?;
    if piece.len() <= ROOM {
        write_buffer.append(piece);
        return Ok(());
    }
    write_all(sink, piece)
}
