//! The tree of a document that was put as a whole (RFC 4825, section 8.3).
ghost use Rattle.std.specs.Prelude.{◌≡◌};
ghost use Rattle.store_core.specs.inner.Prints.{IsPrintOf};

use edit_ops::RecordedTree;
use std::marker::Model;
use xcap_io::Bytes;

/// A tree that a change record inserted, with the print of its document, if there was memory for
/// that. Contracts see the tree.
#[derive(Drop)]
pub struct PrintedTree {
    pub(crate) tree: RecordedTree,
    pub(crate) print: Option<Bytes>,
}

impl Model for PrintedTree {
    ghost use Rattle.xml_tree.specs.Tree.{Tree};
    ghost use Rattle.xml_tree.specs.inner.TreeCodes.{tree_code};
    ghost use Rattle.store_core.specs.inner.Prints.{IsPrintOf};

    ghost Value = { Tree };

    ghost coded = { tree_code };

    ghost view = { λ t. t.tree };

    ghost invariant = { λ t. IsPrintOf t.tree t.print };
}

impl PrintedTree {
    /// The tree of a change record, with the print of its document. Does not allocate.
    pub(crate) fn of(tree: RecordedTree, print: Option<Bytes>) -> PrintedTree
        requires { IsPrintOf tree print }
        ensures exact { result ≡ tree }
    {
        PrintedTree { tree, print }
    }
}
