//! The tree of a stored document, with its print where that was made (RFC 4825, section 8.3).
ghost use Rattle.std.specs.Prelude.{◌≡◌, ◌≤◌, IfOk, OnOk, encode_utf8_all, false, true};
ghost use Rattle.edit_ops.specs.Changes.{FitsTree, edited};
ghost use Rattle.edit_ops.specs.StagedChanges.{IsStaged};
ghost use Rattle.xml_names.specs.Markup.{byte_len};
ghost use Rattle.xml_names.specs.declared.limits.TheConstants.{MAX_LEVELS};
ghost use Rattle.xml_tree.specs.Print.{document_print};
ghost use Rattle.xml_tree.specs.Tree.{height};
ghost use Rattle.store_core.specs.TreeChanges.{IsUnsharedIfInPlace, IsStagedTreeFor};

use crate::printed_tree::PrintedTree;
use crate::shared_root::SharedRoot;
use crate::staged_tree::StagedTree;
use edit_ops::{Change, Staged};
use std::alloc::{AllocError, Global};
use std::marker::Model;
use tree_print::{LentPrint, print_document};
use xcap_io::Bytes;
use xml_tree::Element;

/// The tree of a document. Its print is cached from when the document is put as a whole, or first
/// printed by `print`, until the tree changes; `lend` makes none. Contracts see the tree, and
/// whether nobody shares it.
#[derive(Drop)]
pub struct CachedTree {
    root: SharedRoot,
    print: Option<Bytes>,
}

impl Model for CachedTree {
    ghost use Rattle.std.specs.Coded.{codes};
    ghost use Rattle.xml_tree.specs.inner.TreeCodes.{tree_code};
    ghost use Rattle.store_core.specs.StoredTrees.{StoredTree};
    ghost use Rattle.store_core.specs.inner.Prints.{IsPrintOf};
    ghost use Rattle.store_core.specs.inner.Roots.{is_unshared, root_view};

    ghost Value = { StoredTree };

    ghost coded = { Prim.hlevel (codes, tree_code) };

    ghost view = { λ t. record { root = root_view t.root; own = is_unshared t.root } };

    ghost invariant = { λ t. IsPrintOf (root_view t.root) t.print };
}

impl CachedTree {
    /// The tree that a change record inserted, shared with the record, and its print. Does not
    /// allocate.
    pub(crate) fn from_record(printed: PrintedTree) -> CachedTree
        ensures exact { result ≡ record { root = printed; own = false } }
    {
        let PrintedTree { tree, print } = printed;
        CachedTree {
            root: SharedRoot::Noted(tree),
            print,
        }
    }

    /// Borrows the root. Does not allocate.
    pub(crate) fn root(&self) -> &Element
        ensures exact { result.now ≡ self.now.root }
    {
        self.root.as_element()
    }

    /// Makes the tree unshared; the tree and its print are unchanged.
    ///
    /// # Errors
    /// `AllocError` when out of memory for the copy.
    pub(crate) fn unshare(&mut self, alloc: Global) -> Result<(), AllocError>
        ensures same_root { self.new.root ≡ self.old.root }
        ensures tree_unshared { OnOk result (self.new.own ≡ true) }
    {
        self.root.unshare(alloc)
    }

    /// Makes a change whose memory is reserved. What replaces the whole tree comes with its print,
    /// else the print is discarded. Does not allocate.
    pub(crate) fn apply_staged_change(&mut self, change: &Change, staged: StagedTree)
        requires fits { FitsTree self.old.root change.now }
        requires change_staged { IsStagedTreeFor self.old.root change.now staged }
        requires tree_owned { IsUnsharedIfInPlace staged self.old.own }
        ensures makes_change { self.new.root ≡ edited self.old.root change.now }
    {
        match staged {
            StagedTree::Whole(printed) => *self = CachedTree::from_record(printed),
            StagedTree::InPlace(staged) => self.make_in_place(change, staged),
        }
    }

    // Makes a change in place, and discards the print.
    fn make_in_place(&mut self, change: &Change, staged: Staged)
        requires fits { FitsTree self.old.root change.now }
        requires change_staged { IsStaged self.old.root change.now staged }
        requires tree_owned { self.old.own ≡ true }
        ensures makes_change { self.new.root ≡ edited self.old.root change.now }
    {
        self.print = None;
        self.root.make_in_place(change, staged);
    }

    /// A copy of the document's print, which is then cached, if there is memory for both.
    ///
    /// # Errors
    /// `AllocError` when out of memory.
    pub(crate) fn print(&mut self, alloc: Global) -> Result<Bytes, AllocError>
        ensures prints_document { IfOk result
            (λ bytes. bytes ≡ encode_utf8_all (document_print self.old.root)) }
        ensures contents_unchanged { self.new ≡ self.old }
    {
        if let Some(print) = &self.print {
            return print.copy(alloc);
        }
        let print = print_document(alloc, self.root.as_element())?;
        match print.copy(alloc) {
            Ok(copy) => {
                self.print = Some(print);
                Ok(copy)
            }
            Err(AllocError) => Ok(print),
        }
    }

    /// The document's print of `len` bytes, lent: the cached one, or the tree's. Does not
    /// allocate.
    pub(crate) fn lend(&self, len: usize) -> LentPrint<'_>
        requires known_length { len ≡ byte_len (document_print self.now.root) }
        requires within_levels { height self.now.root ≤ MAX_LEVELS }
        ensures prints_document { result ≡ encode_utf8_all (document_print self.now.root) }
    {
        match &self.print {
            Some(print) => LentPrint::made(print.as_slice()),
            None => LentPrint::document(self.root.as_element(), len),
        }
    }
}
