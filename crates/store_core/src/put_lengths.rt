//! The length of a put element, and the print of a document put as a whole, which is made once for
//! both (RFC 4825, section 8.3).
ghost use Rattle.std.specs.Prelude.{◌≡◌, IfSome, min};
ghost use Rattle.edit_ops.specs.PrintedLengths.{element_len};
ghost use Rattle.edit_ops.specs.InsertedElements.{InsertsElement, inserted_element};
ghost use Rattle.store_core.specs.inner.Prints.{IsInsertedPrint, IsPrintOf};
ghost use Rattle.usage_docs.specs.Services.{document_len};
ghost use Rattle.xml_names.specs.Markup.{byte_len};
ghost use Rattle.xml_tree.specs.Print.{print};
ghost use Rattle.xml_tree.specs.Tree.{Tree};

use crate::root_changes::edits_within_root;
use edit_ops::{Change, element_len};
use std::alloc::{AllocError, Global};
use tree_print::print_document;
use xcap_io::Bytes;
use xml_tree::{Element, printed_len};

// The length in bytes of a printed document before its root.
pub(crate) const HEAD_LEN: usize = 39;

/// What a change puts: the length in bytes of its printed element, at most the greatest number;
/// and the print of the document of which it is the root, if it is put as one and there is memory
/// for that.
#[derive(Drop)]
pub struct Put {
    pub(crate) len: usize,
    pub(crate) print: Option<Bytes>,
}

/// The length in bytes of a printed document, by its root's length, at most the greatest number.
pub(crate) fn document_len(root_len: usize) -> usize
    ensures counts_document { (t : Tree) → root_len ≡ min (byte_len (print t)) usize.MAX
        → result ≡ min (document_len t) usize.MAX }
{
    root_len.saturating_add(HEAD_LEN)
}

/// The root of a document that is put. If there is memory for its print, the print is measured.
#[tactic(auto, using(crate::proofs::PutLengths::print_len))]
pub(crate) fn measure_root(alloc: Global, root: &Element) -> Put
    ensures counts_root { result.len ≡ min (byte_len (print root.now)) usize.MAX }
    ensures prints_document { IsPrintOf root.now result.print }
{
    match print_document(alloc, root) {
        Ok(print) => Put {
            len: print.len() - HEAD_LEN,
            print: Some(print),
        },
        Err(AllocError) => Put {
            len: printed_len(root),
            print: None,
        },
    }
}

// The root by which a change replaces a whole document.
fn replacing_root(change: &Change) -> Option<&Element>
    ensures inserted_root { IfSome result
        (λ root. InsertsElement change.now × (root.now ≡ inserted_element change.now)) }
{
    if edits_within_root(change) {
        return None;
    }
    match change {
        Change::CreateDocument { root } => Some(root),
        Change::Replace { element, .. } => Some(element),
        _ => None,
    }
}

/// The length and the print of what a change puts.
#[tactic(auto, using(crate::proofs::PutLengths::inserted_len, crate::proofs::PutLengths::inserted_print))]
pub(crate) fn measure_put(alloc: Global, change: &Change) -> Put
    ensures counts_element { result.len ≡ min (element_len change.now) usize.MAX }
    ensures prints_document { IsInsertedPrint change.now result.print }
{
    match replacing_root(change) {
        Some(root) => measure_root(alloc, root),
        None => Put {
            len: element_len(change),
            print: None,
        },
    }
}
