//! Prints that are lent: written piece by piece, without a copy.
ghost use Rattle.std.specs.Prelude.{◌≡◌, ◌≤◌, encode_utf8_all, length};
ghost use Rattle.xcap_io.specs.BufferedWrites.{BuffersBytes};
ghost use Rattle.xml_names.specs.Markup.{byte_len};
ghost use Rattle.xml_names.specs.declared.limits.TheConstants.{MAX_LEVELS};
ghost use Rattle.xml_tree.specs.Print.{document_print, print};
ghost use Rattle.xml_tree.specs.Tree.{height};

use crate::pieces::{Pieces, print_pieces};
use std::marker::Model;
use xcap_io::{Failed, Line, Sink, WriteBuffer, put};
use xml_tree::Element;

// Where a print comes from.
#[derive(Clone, Copy)]
enum PrintSource<'a> {
    // It was made already.
    Made(&'a [u8]),
    // It is the print of the document with this root.
    Document(&'a Element),
    // It is the print of this element.
    Element(&'a Element),
}

/// The print of a document or an element, with its length. Contracts see its bytes.
#[derive(Drop)]
pub struct LentPrint<'a> {
    source: PrintSource<'a>,
    len: usize,
}

impl<'a> Model for LentPrint<'a> {
    ghost use Rattle.std.specs.Prelude.{◌≡◌, ℕ, List, length};
    ghost use Rattle.tree_print.specs.inner.LentPrints.{IsWithinLevels, lent_bytes};

    ghost Value = { List ℕ };

    ghost view = { λ p. lent_bytes p.source };

    ghost invariant = { λ p. (p.len ≡ length (lent_bytes p.source)) × IsWithinLevels p.source };
}

// Writes the pieces that are still to come.
fn write_pieces<S: Sink>(
    sink: &mut S,
    write_buffer: &mut WriteBuffer,
    mut pieces: Pieces<'_>,
) -> Result<(), Failed>
    ensures adds_pieces { BuffersBytes
        (record { sink = S.state sink.old; held = write_buffer.old })
        (record { sink = S.state sink.new; held = write_buffer.new }) result
        (encode_utf8_all pieces.entry.text) }
{
    'pieces: while let Some(piece) = pieces.next() {
        put(sink, write_buffer, piece.as_bytes())?;
    }
    Ok(())
}

impl<'a> LentPrint<'a> {
    /// A print that was made already. Does not allocate.
    pub fn made(print: &'a [u8]) -> LentPrint<'a>
        ensures exact { result ≡ print.now }
    {
        LentPrint {
            source: PrintSource::Made(print),
            len: print.len(),
        }
    }

    /// The print of a document with this root, of `len` bytes. Does not allocate.
    pub fn document(root: &'a Element, len: usize) -> LentPrint<'a>
        requires known_length { len ≡ byte_len (document_print root.now) }
        requires within_levels { height root.now ≤ MAX_LEVELS }
        ensures prints_document { result ≡ encode_utf8_all (document_print root.now) }
    {
        LentPrint {
            source: PrintSource::Document(root),
            len,
        }
    }

    /// The print of an element, of `len` bytes. Does not allocate.
    pub fn element(element: &'a Element, len: usize) -> LentPrint<'a>
        requires known_length { len ≡ byte_len (print element.now) }
        requires within_levels { height element.now ≤ MAX_LEVELS }
        ensures prints_element { result ≡ encode_utf8_all (print element.now) }
    {
        LentPrint {
            source: PrintSource::Element(element),
            len,
        }
    }

    /// The number of its bytes. Does not allocate.
    pub fn len(&self) -> usize
        ensures exact { result ≡ length self.now }
    {
        self.len
    }

    /// Writes it through a write buffer, one made already in one piece, else each piece of the
    /// tree as it comes. Does not allocate.
    ///
    /// # Errors
    /// `Failed` where a write failed; a proper prefix of the buffered bytes and the print was
    /// taken.
    pub fn write<S: Sink>(&self, sink: &mut S, write_buffer: &mut WriteBuffer) -> Result<(), Failed>
        ensures adds_print { BuffersBytes
            (record { sink = S.state sink.old; held = write_buffer.old })
            (record { sink = S.state sink.new; held = write_buffer.new }) result self.now }
    {
        match self.source {
            PrintSource::Made(print) => put(sink, write_buffer, print),
            PrintSource::Document(root) => {
                write_pieces(sink, write_buffer, print_pieces(root, true))
            }
            PrintSource::Element(element) => {
                write_pieces(sink, write_buffer, print_pieces(element, false))
            }
        }
    }
}
