//! The xcap-diff document about an element (RFC 5874, section 3).
ghost use Rattle.std.specs.Prelude.{◌≡◌, ◌≤◌, ◌+◌, All, Some, IfOk, length, if◌then◌else◌};
ghost use Rattle.xml_names.specs.declared.limits.TheConstants.{MAX_LEVELS};
ghost use Rattle.xml_tree.specs.Tree.{height};
ghost use Rattle.node_select.specs.Selection.{SelectsPath};
ghost use Rattle.edit_ops.specs.RecordParts.{has_no_notes};
ghost use Rattle.store_core.specs.declared.limits.TheConstants.{MAX_NOTES};
ghost use Rattle.store_core.specs.ValidStates.{IsSoundDocumentFor};
ghost use Rattle.store_core.specs.Since.{ReportedChanges, since};
ghost use Rattle.element_watch.specs.declared.element_states.ElementState.TheVariants.{Unchanged};
ghost use Rattle.element_watch.specs.declared.element_states.ElementState.TheVariants.{Missing};
ghost use Rattle.element_watch.specs.WatchedElements.{IsNoticeAnswer, IsNoticeText};
ghost use Rattle.element_watch.specs.inner.ElementStates.{is_untouched_at, state_at};
ghost use Rattle.element_watch.specs.inner.ElementStates.{state_of_selected};

use crate::element_states::{ElementState, notice_of_element};
use crate::fault::ElementFault;
use crate::key_addresses::key_address;
use crate::path_history::trace;
use doc_names::{DocId, Usage};
use edit_ops::Notes;
use node_select::{Selector, select};
use std::alloc::{AllocError, Global};
use store_core::{Since, Store, notes_since_a_version_lead_from_it};
use xcap_io::Bytes;
use xcap_uri::Root;
use xml_names::Text;
use xml_tree::{Element, Path};

/// What is asked about an element: the etag of the known version, the document, the element's
/// selector, and that selector as it was written.
#[derive(Clone, Copy)]
pub struct Watch<'a> {
    pub tag: u64,
    pub doc: &'a DocId,
    pub selector: &'a Selector,
    pub raw: &'a Text,
}

// Whether a selector that selects the element at a path is a key address, and no change record
// touches the element.
fn is_untouched(
    usage: Usage,
    root: &Element,
    selector: &Selector,
    path: &Path,
    notes: &Notes<'_>,
) -> bool
    requires selects { SelectsPath selector.now.steps root.now path.now }
    requires numbers_bounded { All (λ n. n ≤ 4294967295) path.now }
    requires within_max { length notes.now ≤ MAX_NOTES }
    ensures exact { result
        ≡ is_untouched_at usage root.now selector.now notes.now path.now }
{
    key_address(usage, root, selector, path) && trace(path, notes).is_some()
}

// The state where the selector selects the element at a path.
fn state_at(
    usage: Usage,
    root: &Element,
    selector: &Selector,
    path: &Path,
    notes: &Notes<'_>,
) -> ElementState
    requires selects { SelectsPath selector.now.steps root.now path.now }
    requires numbers_bounded { All (λ n. n ≤ 4294967295) path.now }
    requires within_max { length notes.now ≤ MAX_NOTES }
    ensures exact { result
        ≡ state_at (Some usage) root.now selector.now notes.now (Some path.now) }
{
    if notes.is_empty() || is_untouched(usage, root, selector, path, notes) {
        return ElementState::Unchanged;
    }
    ElementState::Exists
}

// The state where the selector selects nothing.
fn state_if_unselected(notes: &Notes<'_>) -> ElementState
    ensures exact { result
        ≡ (if has_no_notes notes.now then Unchanged else Missing) }
{
    if notes.is_empty() {
        return ElementState::Unchanged;
    }
    ElementState::Missing
}

// The state of an element of a document that is sound for its application usage.
fn state_of(
    alloc: Global,
    usage: Usage,
    root: &Element,
    selector: &Selector,
    notes: &Notes<'_>,
) -> ElementState
    requires is_sound { IsSoundDocumentFor (Some usage) root.now }
    requires height_bounded { height root.now ≤ MAX_LEVELS }
    requires within_max { length notes.now ≤ MAX_NOTES }
    ensures exact { result
        ≡ state_of_selected (Some usage) root.now selector.now notes.now }
{
    match select(alloc, root, selector) {
        None => state_if_unselected(notes),
        Some(path) => state_at(usage, root, selector, &path, notes),
    }
}

// The xcap-diff document about an element of a stored document, with the change records since the
// known version.
fn notice_since(
    alloc: Global,
    store: &Store,
    root: &Root,
    watch: Watch<'_>,
    notes: &Notes<'_>,
) -> Result<Bytes, AllocError>
    requires is_reported { since store.now.content watch.doc.now watch.tag
        ≡ ReportedChanges notes.now }
    requires within_max { length notes.now ≤ MAX_NOTES }
    ensures diff_text { IfOk result
        (IsNoticeText root.now
        (record {
          doc = watch.entry.doc.now;
          selector = watch.entry.selector.now;
          raw = watch.entry.raw.now;
        }) store.now.content notes.now) }
{
    let Some((tree, _tag)) = store.get(watch.doc) else {
        unreachable!();
    };
    let Some(usage) = watch.doc.auid.stored_usage() else {
        unreachable!();
    };
    let state = state_of(alloc, usage, tree, watch.selector, notes);
    notice_of_element(alloc, root, watch.doc, watch.raw, state)
}

/// The xcap-diff document about one element, for a client that knows the version of its document
/// with the etag. It reports nothing where no change was made since; nor where the selector is a
/// key address, selects an element, and no change since touched that. Else it reports that the
/// element may have changed, and whether the selector selects something now.
///
/// # Errors
/// `Gone` and `Unknown` exactly where `Store::since` returns them; `NoMemory` when out of memory.
pub fn element_notice(
    alloc: Global,
    store: &Store,
    root: &Root,
    watch: Watch<'_>,
) -> Result<Bytes, ElementFault>
    ensures answers_by_changes { IsNoticeAnswer root.now
        (record {
          doc = watch.entry.doc.now;
          selector = watch.entry.selector.now;
          raw = watch.entry.raw.now;
        })
        store.now.content
        (since store.now.content watch.entry.doc.now watch.entry.tag) result }
{
    store.represents_valid_state();
    notes_since_a_version_lead_from_it();
    match store.since(watch.doc, watch.tag) {
        Since::Gone => Err(ElementFault::Gone),
        Since::Unknown => Err(ElementFault::Unknown),
        Since::Changes(notes) => Ok(notice_since(alloc, store, root, watch, &notes)?),
    }
}
