//! Where an element was before changes.
ghost use Rattle.std.specs.Prelude.{◌≡◌, ◌↔◌, ◌≤◌, ◌+◌, ◌-◌, ◌||◌, ℕ, List, All, Some, None};
ghost use Rattle.std.specs.Prelude.{is_some, length, not, option_and_then, if◌then◌else◌};
ghost use Rattle.store_core.specs.declared.limits.TheConstants.{MAX_NOTES};
ghost use Rattle.edit_ops.specs.MovedPaths.{path_below, shift_after_insert, change_path_below};
ghost use Rattle.edit_ops.specs.declared.change.Change.TheVariants.{Remove};
ghost use Rattle.element_watch.specs.TouchedElements.{MovesUntouchedThrough};
ghost use Rattle.element_watch.specs.inner.PathHistory.{path_before_notes, path_before_change};
ghost use Rattle.element_watch.specs.inner.PathHistory.{is_touched, map_path_below};
ghost use Rattle.element_watch.specs.inner.PathHistory.{undo_insertion};

use crate::paths::{is_at_or_below, path_below};
use edit_ops::{Change, EditNote, Notes, path_through};
use xml_names::Name;
use xml_tree::Path;

// ---- one change

// The path before an insertion at an insertion point of the element at `parent`: None where it
// leads to or through the inserted element.
fn path_without_inserted(path: &Path, parent: &Path, gap: usize) -> Option<Path>
    ensures exact { result
        ≡ map_path_below (undo_insertion gap) parent.now path.now (path_below parent.now path.now) }
{
    let rest = match path_below(parent, path) {
        None => return Some(path.copy()),
        Some(rest) => rest,
    };
    match rest.split_first() {
        None => Some(path.copy()),
        Some((number, below)) => {
            if *number == gap {
                return None;
            }
            if *number < gap {
                return Some(path.copy());
            }
            Some(path_through(parent, *number - 1, below))
        }
    }
}

// The path before the child `gone` of the element at `parent` was removed.
fn path_with_removed(path: &Path, parent: &Path, gone: usize) -> Path
    requires { All (λ n. n ≤ 4294967359) path.now }
    ensures exact { result ≡ change_path_below (shift_after_insert gone) parent.now path.now }
{
    let rest = match path_below(parent, path) {
        None => return path.copy(),
        Some(rest) => rest,
    };
    match rest.split_first() {
        None => path.copy(),
        Some((number, below)) => {
            if *number < gone {
                return path.copy();
            }
            path_through(parent, *number + 1, below)
        }
    }
}

// The path before an element was inserted: None where the element at the path was inserted, or the
// new one was inserted in it.
fn path_before_insert(path: &Path, parent: &Path, gap: usize) -> Option<Path>
    ensures exact { result
        ≡ (if is_some (path_below path.now parent.now) then None
        else map_path_below (undo_insertion gap) parent.now path.now
        (path_below parent.now path.now)) }
{
    if is_at_or_below(path, parent) {
        return None;
    }
    path_without_inserted(path, parent, gap)
}

// The path before the element at a place was replaced: None where either is in the other.
fn path_before_replace(path: &Path, place: &Path) -> Option<Path>
    ensures exact { result
        ≡ (if is_some (path_below path.now place.now)
        || is_some (path_below place.now path.now) then None
        else Some path.now) }
{
    if is_at_or_below(path, place) {
        return None;
    }
    if is_at_or_below(place, path) {
        return None;
    }
    Some(path.copy())
}

// The path before a child of an element was removed: None where it was removed from the element at
// the path.
fn path_before_child_removal(path: &Path, parent: &Path, gone: usize) -> Option<Path>
    requires { All (λ n. n ≤ 4294967359) path.now }
    ensures exact { result
        ≡ (if not (is_some (path_below path.now parent.now))
        then Some (change_path_below (shift_after_insert gone) parent.now path.now) else None) }
{
    if is_at_or_below(path, parent) {
        return None;
    }
    Some(path_with_removed(path, parent, gone))
}

// The path before the element at a place was removed: None where it was removed from the element
// at the path.
#[tactic(auto, using(crate::proofs::Bounds::cut_parts))]
fn path_before_remove(path: &Path, place: &Path) -> Option<Path>
    requires { All (λ n. n ≤ 4294967359) path.now }
    ensures exact { result ≡ path_before_change path.now (Remove place.now) }
{
    match place.split_last() {
        None => None,
        Some((parent, gone)) => path_before_child_removal(path, &parent, gone),
    }
}

// Whether an attribute of this name of the element at a place touches the element at a path.
fn is_touched(path: &Path, place: &Path, name: &Name) -> bool
    ensures exact { result ≡ is_touched path.now place.now name.now }
{
    is_at_or_below(path, place) || (is_at_or_below(place, path) && name.has_no_prefix())
}

// The path before an attribute of the element at a place was set or removed: None where that
// touches the element at the path.
fn path_before_attr_change(path: &Path, place: &Path, name: &Name) -> Option<Path>
    ensures exact { result
        ≡ (if is_touched path.now place.now name.now then None else Some path.now) }
{
    if is_touched(path, place, name) {
        return None;
    }
    Some(path.copy())
}

// Where the element at a path was before a change: None where the change inserted or touched it.
fn path_before_change(path: &Path, change: &Change) -> Option<Path>
    requires { All (λ n. n ≤ 4294967359) path.now }
    ensures exact { result ≡ path_before_change path.now change.now }
{
    match change {
        Change::CreateDocument { .. } => None,
        Change::Insert { parent, gap, .. } => path_before_insert(path, parent, *gap),
        Change::Replace { at, .. } => path_before_replace(path, at),
        Change::Remove { at } => path_before_remove(path, at),
        Change::SetAttr { at, name, .. } => path_before_attr_change(path, at, name),
        Change::DropAttr { at, name } => path_before_attr_change(path, at, name),
        Change::RemoveDocument => None,
    }
}

// ---- change records

// Where the element at a path was before a recorded change: None where that inserted or touched
// it.
fn path_before_note(path: &Path, note: &EditNote) -> Option<Path>
    requires { All (λ n. n ≤ 4294967359) path.now }
    ensures exact { result ≡ path_before_change path.now note.now.change }
{
    path_before_change(path, note.change())
}

// Where the element at a path was before recorded changes, oldest first: None where one of them
// inserted or touched it.
#[tactic(auto, using(crate::proofs::Bounds::stays_small))]
fn path_before_notes(path: &Path, notes: &[EditNote]) -> Option<Path>
    requires within_max { length notes.now ≤ MAX_NOTES }
    requires numbers_bounded { All (λ n. n ≤ 4294967359 - length notes.now) path.now }
    ensures place_before { result ≡ path_before_notes path.now notes.now }
{
    let [note, notes @ ..] = notes else {
        return Some(path.copy());
    };
    let after = path_before_notes(path, notes)?;
    path_before_note(&after, note)
}

// Where the element at a path was before recorded changes in two pieces.
#[tactic(auto, using(crate::proofs::Bounds::middle_small))]
fn path_before_all_notes(path: &Path, older: &[EditNote], newer: &[EditNote]) -> Option<Path>
    requires numbers_bounded { All (λ n. n ≤ 4294967295) path.now }
    requires within_max { length older.now + length newer.now ≤ MAX_NOTES }
    ensures exact { result
        ≡ option_and_then (λ m. path_before_notes m older.now)
        (path_before_notes path.now newer.now) }
{
    let middle = path_before_notes(path, newer)?;
    path_before_notes(&middle, older)
}

/// Where the element at a path was before recorded changes, oldest first: the only path that they
/// move to it, where none touches it on the way. None exactly where there is no such path. No
/// number of the path is above 4,294,967,295, and there are at most `MAX_NOTES` records. Does not
/// allocate.
pub fn trace(path: &Path, notes: &Notes<'_>) -> Option<Path>
    requires numbers_bounded { All (λ n. n ≤ 4294967295) path.now }
    requires within_max { length notes.now ≤ MAX_NOTES }
    ensures place_before { (p : List ℕ)
        → (result ≡ Some p) ↔ MovesUntouchedThrough p notes.now path.now }
{
    let (older, newer) = notes.pieces();
    path_before_all_notes(path, older, newer)
}
