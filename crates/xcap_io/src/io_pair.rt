// A source and a sink as one stream.
ghost use Rattle.std.specs.Prelude.{◌≡◌, [], ◌∷◌};
ghost use Rattle.xcap_io.specs.StreamPairs.{pair_state};

use crate::{Failed, Line, Sink, Source};

/// A stream that reads from one object and writes to another. Its fault counters are theirs.
#[derive(Drop)]
pub struct IoPair<'a, I: Source, O: Sink> {
    input: &'a mut I,
    output: &'a mut O,
}

impl<'a, I: Source, O: Sink> IoPair<'a, I, O> {
    /// Joins a source and a sink.
    pub fn new(input: &'a mut I, output: &'a mut O) -> IoPair<'a, I, O>
        ensures of_both { ⟦<IoPair<'a, I, O> as Line>⟧.state result ≡ pair_state
            (I.state input.old) (O.state output.old)
            (input.entry.ghost_name ∷ output.entry.ghost_name ∷ []) }
    {
        IoPair { input, output }
    }
}

impl<I: Source, O: Sink> Line for IoPair<'_, I, O> {
    ghost state = { λ p.
        pair_state
        (I.state p.input.now) (O.state p.output.now)
        (p.input.ghost_name ∷ p.output.ghost_name ∷ []) };
}

impl<I: Source, O: Sink> Source for IoPair<'_, I, O> {
    fn read(&mut self, buf: &mut [u8]) -> Result<usize, Failed> {
        self.input.read(buf)
    }
}

impl<I: Source, O: Sink> Sink for IoPair<'_, I, O> {
    fn write(&mut self, piece: &[u8]) -> Result<usize, Failed> {
        self.output.write(piece)
    }
}
