// Writes a whole piece, in as many writes as it takes.
ghost use Rattle.xcap_io.specs.StreamStates.{OnlyWrites};
ghost use Rattle.xcap_io.specs.StreamWrites.{WritesAll};

use crate::{Failed, Sink};

/// Writes all the bytes. At `Failed` the sink took a proper prefix of them. Does not allocate.
pub fn write_all<S: Sink>(sink: &mut S, bytes: &[u8]) -> Result<(), Failed>
    ensures all_or_prefix { WritesAll (S.state sink.old).taken
        (S.state sink.new).taken result bytes.now }
    ensures only_writes { OnlyWrites (S.state sink.old) (S.state sink.new) result }
{
    let mut done = 0;
    while done < bytes.len() {
        done += sink.write(&bytes[done..])?;
    }
    Ok(())
}
