//! Laws of changes, each the contract of a function that does nothing.
ghost use Rattle.xml_tree.specs.Tree.{Tree};
ghost use Rattle.edit_ops.specs.Changes.{FitsTree, edited};
ghost use Rattle.edit_ops.specs.MovedPaths.{KeepsOtherElements};
ghost use Rattle.edit_ops.specs.declared.change.Change.{Change};

/// A change that fits a tree leaves each element that it isn't at or inside unchanged, at the
/// place that `moved` says.
pub fn elements_beside_a_change_stay()
    ensures keeps_others { (t : Tree) (change : Change) → FitsTree t change
        → KeepsOtherElements t change (edited t change) }
{}
