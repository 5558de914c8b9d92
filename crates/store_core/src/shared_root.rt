//! The root of a document's tree: unshared, or shared with a change record.
ghost use Rattle.std.specs.Prelude.{◌≡◌, OnOk, true};
ghost use Rattle.edit_ops.specs.Changes.{FitsTree, edited};
ghost use Rattle.edit_ops.specs.StagedChanges.{IsStaged};
ghost use Rattle.store_core.specs.inner.Roots.{is_unshared, root_view};

use edit_ops::{Change, RecordedTree, Staged, apply_staged};
use std::alloc::{AllocError, Global};
use std::mem;
use xml_names::{LocalName, Name, Prefix};
use xml_tree::{Element, copy_tree};

/// The root of a tree.
#[derive(Drop)]
pub enum SharedRoot {
    /// Nobody shares it.
    Own(Element),
    /// It is the tree of a change record, which others may share.
    Noted(RecordedTree),
}

// A root without a name, as a placeholder for one that is moved out.
fn nameless_root(alloc: Global) -> SharedRoot
    ensures own_is_unshared { is_unshared result ≡ true }
{
    let name = Name {
        prefix: Prefix::empty(),
        local: LocalName::empty(),
    };
    SharedRoot::Own(Element::new(alloc, name))
}

// A copy of a record's root; or that root, when out of memory.
fn copy_or_share_root(alloc: Global, tree: RecordedTree) -> SharedRoot
    ensures same_root { root_view result ≡ tree }
{
    match copy_tree(alloc, tree.root()) {
        Ok(copy) => SharedRoot::Own(copy),
        Err(AllocError) => SharedRoot::Noted(tree),
    }
}

// A record's root, unshared: moved out of the record, if nobody else has that any more, else
// copied, if there is memory for that.
fn take_root(alloc: Global, tree: RecordedTree) -> SharedRoot
    ensures same_root { root_view result ≡ tree }
{
    match tree.into_root() {
        Ok(root) => SharedRoot::Own(root),
        Err(tree) => copy_or_share_root(alloc, tree),
    }
}

impl SharedRoot {
    /// Borrows the root. Does not allocate.
    pub(crate) fn as_element(&self) -> &Element
        ensures exact { result.now ≡ root_view self.now }
    {
        match self {
            SharedRoot::Own(root) => root,
            SharedRoot::Noted(tree) => tree.root(),
        }
    }

    // Whether nobody shares it.
    fn is_unshared(&self) -> bool
        ensures ok { result ≡ is_unshared self.now }
    {
        match self {
            SharedRoot::Own(_) => true,
            SharedRoot::Noted(_) => false,
        }
    }

    // The root, unshared, if there is memory for the copy that may be needed.
    fn make_unshared(self, alloc: Global) -> SharedRoot
        ensures same_root { root_view result ≡ root_view self }
    {
        match self {
            SharedRoot::Own(root) => SharedRoot::Own(root),
            SharedRoot::Noted(tree) => take_root(alloc, tree),
        }
    }

    /// Makes the root unshared and leaves it unchanged: it is moved out of its record, if nobody
    /// else has that any more, else copied.
    ///
    /// # Errors
    /// `AllocError` when out of memory for the copy.
    pub(crate) fn unshare(&mut self, alloc: Global) -> Result<(), AllocError>
        ensures same_root { root_view self.new ≡ root_view self.old }
        ensures own_is_unshared { OnOk result (is_unshared self.new ≡ true) }
    {
        let root = mem::replace(self, nameless_root(alloc));
        *self = root.make_unshared(alloc);
        if self.is_unshared() {
            return Ok(());
        }
        Err(AllocError)
    }

    /// Makes a change in place, in an unshared root. Does not allocate.
    pub(crate) fn make_in_place(&mut self, change: &Change, staged: Staged)
        requires tree_owned { is_unshared self.old ≡ true }
        requires fits { FitsTree (root_view self.old) change.now }
        requires change_staged { IsStaged (root_view self.old) change.now staged }
        ensures makes_change { root_view self.new ≡ edited (root_view self.old) change.now }
    {
        match self {
            SharedRoot::Own(root) => apply_staged(root, change, staged),
            SharedRoot::Noted(_) => unreachable!(),
        }
    }
}
