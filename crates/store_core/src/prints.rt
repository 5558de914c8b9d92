//! The prints of documents (RFC 4825, section 8.3).
ghost use Rattle.std.specs.Prelude.{◌≡◌, ℕ, List, encode_utf8_all, IfOk, Some};
ghost use Rattle.std.specs.Map.{lookup};
ghost use Rattle.indexmap.specs.IndexMap.{spare};
ghost use Rattle.std.specs.Option.{option_map};
ghost use Rattle.doc_names.specs.NameEquality.{same_id};
ghost use Rattle.xml_tree.specs.Print.{document_print};
ghost use Rattle.store_core.specs.DocumentChanges.{find_document, stored_id};

use crate::entry::Entry;
use crate::step::{Documents, find_entry};
use crate::store::Store;
use doc_names::DocId;
use std::alloc::{AllocError, Global};
use tree_print::LentPrint;
use xcap_io::Bytes;

// The print of an entry's document.
fn print_of(alloc: Global, entry: &mut Entry) -> Result<Option<Bytes>, AllocError>
    ensures prints_document { IfOk result
        (λ print. print ≡ Some (encode_utf8_all (document_print entry.old.tree.root))) }
    ensures contents_unchanged { entry.new ≡ entry.old }
{
    let print = entry.tree.print(alloc)?;
    Ok(Some(print))
}

// The print of a document, if it is stored.
fn stored_print(
    alloc: Global,
    documents: &mut Documents,
    doc: &DocId,
) -> Result<Option<Bytes>, AllocError>
    ensures prints_document { IfOk result
        (λ print. print ≡ option_map (λ v. encode_utf8_all (document_print v.tree.root))
        (lookup (same_id doc.now) documents.old.entries)) }
    ensures contents_unchanged { documents.new.entries ≡ documents.old.entries }
    ensures room_stays { spare documents.new ≡ spare documents.old }
{
    match documents.get_mut(doc) {
        Some(entry) => print_of(alloc, entry),
        None => Ok(None),
    }
}

impl Store {
    /// The print of a document: None exactly where it isn't stored. A document is printed when it
    /// is put as a whole, or first read after an edit, and the print is then cached, if there is
    /// memory for that: so at most one print of each document is cached.
    ///
    /// # Errors
    /// `AllocError` when out of memory.
    pub fn print(&mut self, doc: &DocId) -> Result<Option<Bytes>, AllocError>
        ensures prints_document { IfOk result
            (λ print. print ≡ option_map (λ h. encode_utf8_all (document_print h.tree))
            (find_document stored_id self.old.content.documents doc.now)) }
        ensures contents_unchanged { self.new ≡ self.old }
    {
        stored_print(self.alloc, &mut self.documents, doc)
    }

    /// The print and the etag of a document, lent: None exactly where it isn't stored. Where no
    /// print is cached, the tree is lent, and none is made. Does not allocate.
    pub fn lend(&self, doc: &DocId) -> Option<(LentPrint<'_>, u64)>
        ensures lends_version { result ≡ option_map {U = List ℕ × ℕ}
            (λ h. (encode_utf8_all (document_print h.tree), h.tag))
            (find_document stored_id self.now.content.documents doc.now) }
    {
        match find_entry(&self.documents, doc) {
            None => None,
            Some(entry) => Some((entry.tree.lend(entry.len), entry.tag)),
        }
    }
}
