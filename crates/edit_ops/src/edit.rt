//! A change of a stored document.
use crate::edit_note::EditNote;
use doc_names::DocId;

/// An accepted change of a document: its name, and the change record.
#[derive(Drop)]
pub struct Edit {
    pub doc: DocId,
    pub note: EditNote,
}
