//! Changes of documents (RFC 4825, sections 8.2 and 8.4).
ghost use Rattle.std.specs.Prelude.{◌≡◌, IfOk};
ghost use Rattle.edit_ops.specs.ChangeSites.{change_site};

use std::alloc::{AllocError, Global};
use xml_names::{Name, Text};
use xml_tree::{Element, Path, copy_tree};

/// A change of a document.
#[derive(Drop)]
pub enum Change {
    /// Creates the document, with this root.
    CreateDocument {
        root: Element,
    },
    /// Inserts an element into a gap of the element at a path: gap 0 is before all nodes, gap `j`
    /// directly after the `j`-th child element.
    Insert {
        parent: Path,
        gap: usize,
        element: Element,
    },
    /// Replaces the element at a path by another.
    Replace {
        at: Path,
        element: Element,
    },
    /// Removes the element at a path, and joins texts that meet.
    Remove {
        at: Path,
    },
    /// Writes the attribute of this prefix and local name, after the others if it is new.
    SetAttr {
        at: Path,
        name: Name,
        value: Text,
    },
    /// Removes the attribute of this prefix and local name.
    DropAttr {
        at: Path,
        name: Name,
    },
    /// Removes the document.
    RemoveDocument,
}

impl Change {
    /// An equal change.
    ///
    /// # Errors
    /// `AllocError` when out of memory.
    pub fn copy(&self, alloc: Global) -> Result<Change, AllocError>
        ensures equal_copy { IfOk result (λ made. made ≡ self.now) }
    {
        let made = match self {
            Change::CreateDocument { root } => {
                let root = copy_tree(alloc, root)?;
                Change::CreateDocument { root }
            }
            Change::Insert {
                parent,
                gap,
                element,
            } => {
                let element = copy_tree(alloc, element)?;
                Change::Insert {
                    parent: parent.copy(),
                    gap: *gap,
                    element,
                }
            }
            Change::Replace { at, element } => {
                let element = copy_tree(alloc, element)?;
                Change::Replace {
                    at: at.copy(),
                    element,
                }
            }
            Change::Remove { at } => Change::Remove { at: at.copy() },
            Change::SetAttr { at, name, value } => {
                let name = name.copy(alloc)?;
                let value = value.copy(alloc)?;
                Change::SetAttr {
                    at: at.copy(),
                    name,
                    value,
                }
            }
            Change::DropAttr { at, name } => {
                let name = name.copy(alloc)?;
                Change::DropAttr {
                    at: at.copy(),
                    name,
                }
            }
            Change::RemoveDocument => Change::RemoveDocument,
        };
        Ok(made)
    }
}

// The place of the element that a change is made in.
#[tactic(auto, using(crate::proofs::WayLemmas::parents))]
pub(crate) fn site_of(change: &Change) -> Path
    ensures exact { result ≡ change_site change.now }
{
    match change {
        Change::CreateDocument { .. } => Path::root(),
        Change::Insert { parent, .. } => parent.copy(),
        Change::Replace { at, .. } => at.copy(),
        Change::Remove { at } => match at.split_last() {
            None => Path::root(),
            Some((parent, _)) => parent,
        },
        Change::SetAttr { at, .. } => at.copy(),
        Change::DropAttr { at, .. } => at.copy(),
        Change::RemoveDocument => Path::root(),
    }
}
