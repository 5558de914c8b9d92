//! The element that a recorded change inserts, shared with the record.
ghost use Rattle.std.specs.Prelude.{◌≡◌, IfErr, IfOk};
ghost use Rattle.edit_ops.specs.InsertedElements.{InsertsElement, inserted_element};

use crate::Change;
use crate::edit_note::EditNote;
use std::alloc::AllocError;
use std::marker::Model;
use xml_tree::Element;

/// The element that a recorded change inserts: the root of a created document, an inserted
/// element, or the replacement of another. It is in memory once, for the record and for all who
/// share it. Contracts see the element.
#[derive(Drop)]
pub struct RecordedTree {
    note: EditNote,
}

impl Model for RecordedTree {
    ghost use Rattle.xml_tree.specs.Tree.{Tree};
    ghost use Rattle.xml_tree.specs.inner.TreeCodes.{tree_code};
    ghost use Rattle.edit_ops.specs.InsertedElements.{InsertsElement, inserted_element};

    ghost Value = { Tree };

    ghost coded = { tree_code };

    ghost view = { λ t. inserted_element t.note.change };

    ghost invariant = { λ t. InsertsElement t.note.change };
}

// The element that a change inserts.
fn element_of(change: &Change) -> &Element
    requires { InsertsElement change.now }
    ensures lends_element { result.now ≡ inserted_element change.now }
{
    match change {
        Change::CreateDocument { root } => root,
        Change::Insert { element, .. } => element,
        Change::Replace { element, .. } => element,
        _ => unreachable!(),
    }
}

// The element that a change inserts, taken out of it.
fn into_element(change: Change) -> Element
    requires { InsertsElement change }
    ensures exact { result ≡ inserted_element change }
{
    match change {
        Change::CreateDocument { root } => root,
        Change::Insert { element, .. } => element,
        Change::Replace { element, .. } => element,
        _ => unreachable!(),
    }
}

impl RecordedTree {
    /// The element of a record whose change inserts one. Nothing is copied.
    ///
    /// # Errors
    /// `AllocError` where the record is shared too often.
    pub fn of(note: &EditNote) -> Result<RecordedTree, AllocError>
        requires { InsertsElement note.now.change }
        ensures ok { IfOk result (λ tree. tree ≡ inserted_element note.now.change) }
    {
        let note = note.copy()?;
        Ok(RecordedTree { note })
    }

    /// The element, borrowed. Does not allocate.
    pub fn root(&self) -> &Element
        ensures lends_element { result.now ≡ self.now }
    {
        element_of(self.note.change())
    }

    /// The element itself, if nobody else has the record any more; otherwise the shared element
    /// again. Does not allocate.
    pub fn into_root(self) -> Result<Element, RecordedTree>
        ensures exact { IfOk result (λ root. root ≡ self) }
        ensures err_same { IfErr result (λ tree. tree ≡ self) }
    {
        let RecordedTree { note } = self;
        match note.try_into_change() {
            Ok(change) => Ok(into_element(change)),
            Err(note) => Err(RecordedTree { note }),
        }
    }
}
