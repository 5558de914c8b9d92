// Reading from and writing to streams: sockets and the standard streams.
ghost use Rattle.std.specs.Io.{ReadsAtMost, WritesAtMost};
ghost use Rattle.std.specs.Io.KnownBytes.{ReadConsumes, WriteAppends};

use std::io::{Read, Result, Write};

/// `read`: puts the next bytes of the stream at the start of `buf` and returns how many; 0 at the
/// end of the stream.
pub fn read<S: Read>(stream: &mut S, buf: &mut [u8]) -> Result<usize>
    ensures in_bounds { ReadsAtMost result buf.new }
    ensures from_stream { ReadConsumes (S.remaining stream.old) (S.remaining stream.new) result
        buf.new }
{
    stream.read(buf)
}

/// `write`: hands the first bytes of `piece` to the stream and returns how many it took.
pub fn write<S: Write>(stream: &mut S, piece: &[u8]) -> Result<usize>
    ensures in_bounds { WritesAtMost result piece.now }
    ensures to_stream { WriteAppends (S.contents stream.old) (S.contents stream.new) result
        piece.now }
{
    stream.write(piece)
}
