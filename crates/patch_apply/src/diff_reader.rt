//! Reading diff documents.
ghost use Rattle.std.specs.Prelude.{◌≡◌, []};
ghost use Rattle.xml_tree.specs.Proper.{IsProperTree};
ghost use Rattle.xml_names.specs.ReadErrors.{ResultSatisfies};
ghost use Rattle.patch_apply.specs.DiffTexts.{NoticeAnswer};

use crate::fault::NoticeFault;
use patch_parse::is_notice;
use std::alloc::Global;
use std::marker::Model;
use tree_text::read_document;
use xml_names::{MAX_LEVELS, ReadError};
use xml_tree::Element;

// The greatest depth of a diff document: the levels of a document, and the root, its `document`
// and an operation around them.
const NOTICE_DEPTH: usize = MAX_LEVELS + 3;

/// A diff document that was read. Contracts see its tree.
#[derive(Drop)]
pub struct Notice {
    root: Element,
}

impl Model for Notice {
    ghost use Rattle.xml_tree.specs.Tree.{Tree};
    ghost use Rattle.xml_tree.specs.inner.TreeCodes.{tree_code};
    ghost use Rattle.patch_apply.specs.DiffTexts.{IsNotice};

    ghost Value = { Tree };

    ghost coded = { tree_code };

    ghost view = { λ n. n.root };

    ghost invariant = { λ n. IsNotice n.root };
}

impl Notice {
    // The root of the diff document.
    pub(crate) fn root(&self) -> &Element
        ensures exact { result.now ≡ self.now }
        ensures is_proper { IsProperTree [] result.now }
    {
        &self.root
    }
}

/// Parses a diff document: an XML document of at most `MAX_LEVELS + 3` levels whose root is an
/// `xcap-diff` with an `xcap-root`, and each of whose `document`s has a `sel` and an etag, and has
/// operations or a single `body-not-changed` (RFC 5874, section 3).
///
/// # Errors
/// `NotADiff` exactly where the bytes are no such document; `NoMemory` when out of memory.
pub fn read_notice(alloc: Global, bytes: &[u8]) -> Result<Notice, ReadError<NoticeFault>>
    ensures grammar_answer { ResultSatisfies (NoticeAnswer bytes.now) result }
{
    let root = match read_document(alloc, bytes, NOTICE_DEPTH) {
        Ok(root) => root,
        Err(ReadError::Fault(_)) => return Err(ReadError::Fault(NoticeFault::NotADiff)),
        Err(ReadError::NoMemory) => return Err(ReadError::NoMemory),
    };
    if !is_notice(alloc, &root)? {
        return Err(ReadError::Fault(NoticeFault::NotADiff));
    }
    Ok(Notice { root })
}
