//! Changes made in place.
ghost use Rattle.std.specs.Prelude.{◌≡◌, OnOk, OnErr};
ghost use Rattle.edit_ops.specs.Changes.{FitsTree, NeedsMemory, edited};
ghost use Rattle.edit_ops.specs.MovedPaths.{KeepsOtherElements};

use crate::change::Change;
use crate::staged_change::{apply_staged, stage};
use std::alloc::{AllocError, Global};
use xml_tree::Element;

/// Makes a change of a tree in place. The change fits the tree: its places, gap and dropped
/// attribute are there. Each element that the change isn't at or inside is then found unchanged
/// where `moved` says.
///
/// # Errors
/// `AllocError` when out of memory; the tree is then unchanged. It never comes where an attribute is
/// dropped, and where an element is removed only if texts are directly on both sides of it.
pub fn apply_change(alloc: Global, root: &mut Element, change: &Change) -> Result<(), AllocError>
    requires { FitsTree root.old change.now }
    ensures makes_change { OnOk result (root.new ≡ edited root.old change.now) }
    ensures others_unchanged { OnOk result (KeepsOtherElements root.old change.now root.new) }
    ensures err_unchanged { OnErr result (root.new ≡ root.old) }
    ensures err_wants_memory { OnErr result (NeedsMemory root.old change.now) }
{
    let staged = stage(alloc, root, change)?;
    apply_staged(root, change, staged);
    Ok(())
}
