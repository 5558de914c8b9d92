//! The parts of a print that is still to come, on a stack of fixed size.
ghost use Rattle.std.specs.Prelude.{◌≡◌, ◌+◌, ◌++◌, ◌≤◌, [], MatchOption};
ghost use Rattle.tree_print.specs.inner.Parts.{part_pieces, part_print, part_room};

use crate::escapes::EscapeContext;
use std::marker::Model;
use xml_names::{Attr, Decl, Name};
use xml_tree::{Element, Node};

/// A part of a print.
#[derive(Clone, Copy)]
pub(crate) enum Part<'a> {
    /// Characters as they are.
    Plain(&'a str),
    /// A text as printed in a place.
    Escaped(&'a str, EscapeContext),
    /// What follows a reference in a text that is printed in a place.
    Broken(&'a str, EscapeContext),
    Named(&'a Name),
    /// Some declarations of an element, and all that follows them in it.
    Decls(&'a [Decl], &'a Element),
    /// Some attributes of an element, and all that follows them in it.
    Attrs(&'a [Attr], &'a Element),
    Nodes(&'a [Node]),
    EndTag(&'a Name),
    /// A whole element.
    Whole(&'a Element),
}

// How many parts there is room for: two for each open element, and those of one tag.
pub(crate) const CAPACITY: usize = 136;

/// The parts that are still to be printed. Contracts see what they print, in how many pieces at
/// most, and how many they are.
#[derive(Drop)]
pub(crate) struct Parts<'a> {
    stack: [Part<'a>; CAPACITY],
    next: usize,
}

impl<'a> Model for Parts<'a> {
    ghost use Rattle.std.specs.Prelude.{◌≡◌, ◌≤◌, drop, length};
    ghost use Rattle.tree_print.specs.declared.parts.TheConstants.{CAPACITY};
    ghost use Rattle.tree_print.specs.inner.Parts.{HaveRoom, Pending, pending};

    ghost Value = { Pending };

    ghost view = { λ p. pending (drop p.next p.stack) };

    ghost invariant = { λ p.
        (p.next ≤ CAPACITY) × (length p.stack ≡ CAPACITY) × HaveRoom (drop p.next p.stack) };
}

impl<'a> Parts<'a> {
    /// No parts.
    pub(crate) fn new() -> Parts<'a>
        ensures holds_nothing { result ≡ record { text = []; pieces = 0; taken = 0 } }
    {
        Parts {
            stack: [Part::Plain(""); CAPACITY],
            next: CAPACITY,
        }
    }

    /// Puts a part in front of the others.
    #[inline(always)]
    pub(crate) fn push(&mut self, part: Part<'a>)
        requires { self.old.taken + part_room part ≤ CAPACITY }
        ensures text_before { self.new.text ≡ part_print part.entry ++ self.old.text }
        ensures more_pieces { self.new.pieces ≡ part_pieces part.entry + self.old.pieces }
        ensures one_more { self.new.taken ≡ self.old.taken + 1 }
    {
        let at = self.next - 1;
        self.next = at;
        let places = &mut self.stack[..];
        places[at] = part;
    }

    /// Takes the next part.
    #[inline(always)]
    pub(crate) fn pop(&mut self) -> Option<Part<'a>>
        ensures text_in_front { MatchOption result (self.old.text ≡ [])
            (λ part. self.old.text ≡ part_print part ++ self.new.text) }
        ensures fewer_pieces { MatchOption result (self.new.pieces ≡ self.old.pieces)
            (λ part. self.old.pieces ≡ part_pieces part + self.new.pieces) }
        ensures has_room { MatchOption result (self.new.text ≡ [])
            (λ part. self.new.taken + part_room part ≤ CAPACITY) }
    {
        if self.next == CAPACITY {
            return None;
        }
        let places = &self.stack[..];
        let part = places[self.next];
        self.next += 1;
        Some(part)
    }
}
