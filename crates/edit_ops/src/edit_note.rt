//! Change records.
ghost use Rattle.std.specs.Prelude.{◌≡◌, IfErr, IfOk, min};
ghost use Rattle.xml_tree.specs.Tree.{Tree};
ghost use Rattle.edit_ops.specs.Changes.{FitsTree};
ghost use Rattle.edit_ops.specs.PrintedLengths.{element_len};
ghost use Rattle.edit_ops.specs.Notes.{note_of};
ghost use Rattle.edit_ops.specs.DiffOperations.{weight};
ghost use Rattle.edit_ops.specs.RecordParts.{IsDocumentChange, made_note};
ghost use Rattle.edit_ops.specs.inner.WeighedRecords.{IsWeighed, note_in};

use crate::Change;
use crate::record_bindings::{bindings_of_place, is_fresh};
use crate::record_weight::weight;
use std::alloc::{AllocError, Global};
use std::marker::Model;
use std::rc::Rc;
use xml_names::{Decl, List};
use xml_tree::Element;

/// A change record: what is stored of a change of a document. A copy shares it, so an inserted
/// element is in memory once for the retained records and for the reported ones, and a whole
/// document once for its tree, too (`RecordedTree`). Contracts see a `Note`.
#[derive(Drop)]
pub struct EditNote {
    kept: Rc<KeptNote>,
}

// A change record, and its weight.
#[derive(Drop)]
pub struct KeptNote {
    previous: u64,
    next: u64,
    bindings: List<Decl>,
    change: Change,
    fresh: bool,
    weight: usize,
}

impl Model for EditNote {
    ghost use Rattle.std.specs.Coded.{codes};
    ghost use Rattle.edit_ops.specs.contracts.change.Change as c;
    ghost use Rattle.edit_ops.specs.Notes.{Note};
    ghost use Rattle.edit_ops.specs.inner.WeighedRecords.{IsWeighed, note_in};

    ghost Value = { Note };

    ghost coded = { Prim.hlevel (codes, c.the_row.coded) };

    ghost view = { λ n. note_in n.kept.value };

    ghost invariant = { λ n. IsWeighed n.kept.value };
}

impl EditNote {
    /// The record of a change of a tree with the tag `previous`, where the tree after it gets the
    /// tag `next`. `root` is the tree before; `put` is `element_len` of the change, from which
    /// the record's weight is computed.
    ///
    /// # Errors
    /// `AllocError` when out of memory.
    pub fn of(
        alloc: Global,
        previous: u64,
        next: u64,
        root: &Element,
        change: Change,
        put: usize,
    ) -> Result<EditNote, AllocError>
        requires fits { FitsTree root.now change }
        requires length_of_part { put ≡ min (element_len change) usize.MAX }
        ensures ok { IfOk result (λ made. made ≡ note_of previous next root.now change) }
    {
        let bindings = bindings_of_place(alloc, root, &change)?;
        let fresh = is_fresh(root, &change);
        EditNote::from_parts(
            alloc,
            previous,
            next,
            List::from(bindings),
            change,
            fresh,
            put,
        )
    }

    /// The record of a change that creates or removes a document. Its weight is 0, so nothing is
    /// counted.
    ///
    /// # Errors
    /// `AllocError` when out of memory.
    #[tactic(auto, using(crate::proofs::Operations::weightless))]
    pub fn of_document(
        alloc: Global,
        previous: u64,
        next: u64,
        change: Change,
    ) -> Result<EditNote, AllocError>
        requires { IsDocumentChange change }
        ensures any_tree { IfOk result
            (λ made. (t : Tree) → made ≡ note_of previous next t change) }
    {
        let note = KeptNote {
            previous,
            next,
            bindings: List::empty(alloc),
            change,
            fresh: false,
            weight: 0,
        };
        EditNote::new_weighed(alloc, note)
    }

    /// A record by its parts, whatever tree they are of; `put` is `element_len` of the change.
    ///
    /// # Errors
    /// `AllocError` when out of memory.
    pub fn from_parts(
        alloc: Global,
        previous: u64,
        next: u64,
        bindings: List<Decl>,
        change: Change,
        fresh: bool,
        put: usize,
    ) -> Result<EditNote, AllocError>
        requires length_of_part { put ≡ min (element_len change) usize.MAX }
        ensures ok { IfOk result (λ made. made ≡ made_note previous next bindings change fresh) }
    {
        let weight = weight(bindings.as_slice(), fresh, &change, put);
        let note = KeptNote {
            previous,
            next,
            bindings,
            change,
            fresh,
            weight,
        };
        EditNote::new_weighed(alloc, note)
    }

    // A record with its weight.
    fn new_weighed(alloc: Global, note: KeptNote) -> Result<EditNote, AllocError>
        requires weighed { IsWeighed note }
        ensures ok { IfOk result (λ made. made ≡ note_in note) }
    {
        let kept = Rc::new(alloc, note)?;
        Ok(EditNote { kept })
    }

    /// The record, shared.
    ///
    /// # Errors
    /// `AllocError` where it is shared too often.
    pub fn copy(&self) -> Result<EditNote, AllocError>
        ensures equal_copy { IfOk result (λ made. made ≡ self.now) }
    {
        let kept = self.kept.clone()?;
        Ok(EditNote { kept })
    }

    /// Its change, if nobody else shares the record; otherwise the record again. Does not
    /// allocate.
    pub fn try_into_change(self) -> Result<Change, EditNote>
        ensures ok { IfOk result (λ change. change ≡ self.change) }
        ensures err_same { IfErr result (λ note. note ≡ self) }
    {
        let EditNote { kept } = self;
        match Rc::try_unwrap(kept) {
            Ok(note) => {
                let KeptNote { change, .. } = note;
                Ok(change)
            }
            Err(kept) => Err(EditNote { kept }),
        }
    }

    /// The tag before the change; 0 if it created the document.
    pub fn previous(&self) -> u64
        ensures tag_before { result ≡ self.now.previous }
    {
        self.kept.previous
    }

    /// The tag after it.
    pub fn next(&self) -> u64
        ensures tag_after { result ≡ self.now.next }
    {
        self.kept.next
    }

    /// All bindings in scope at its place, without the binding of `xml`: at the parent for an
    /// inserted, replaced or removed element, at the element for an attribute; none for the root,
    /// or for a document.
    pub fn bindings(&self) -> &[Decl]
        ensures exact { result.now ≡ self.now.bindings }
    {
        self.kept.bindings.as_slice()
    }

    /// The change.
    pub fn change(&self) -> &Change
        ensures exact { result.now ≡ self.now.change }
    {
        &self.kept.change
    }

    /// Whether it wrote a new attribute.
    pub fn is_fresh(&self) -> bool
        ensures exact { result ≡ self.now.fresh }
    {
        self.kept.fresh
    }

    /// The length in bytes of its operation, as an xcap-diff document with the prefix `d` has it
    /// (RFC 5261, section 4): `usize::MAX` if it is longer, and 0 for a document that is created
    /// or removed.
    pub fn weight(&self) -> usize
        ensures exact { result ≡ min (weight self.now) usize.MAX }
    {
        self.kept.weight
    }
}
