//! Whether a change keeps the root of a document.
ghost use Rattle.std.specs.Prelude.{◌≡◌};
ghost use Rattle.store_core.specs.TreeChanges.{edits_within_root, is_below_root};

use edit_ops::Change;
use xml_tree::Path;

// Whether a path leads to an element below the root.
fn is_below_root(path: &Path) -> bool
    ensures exact { result ≡ is_below_root path.now }
{
    match path.numbers() {
        [] => false,
        _ => true,
    }
}

/// Whether a change keeps the root of the document, and changes something in it. Does not
/// allocate.
pub(crate) fn edits_within_root(change: &Change) -> bool
    ensures ok { result ≡ edits_within_root change.now }
{
    match change {
        Change::CreateDocument { .. } => false,
        Change::Insert { .. } => true,
        Change::Replace { at, .. } => is_below_root(at),
        Change::Remove { .. } => true,
        Change::SetAttr { .. } => true,
        Change::DropAttr { .. } => true,
        Change::RemoveDocument => false,
    }
}
