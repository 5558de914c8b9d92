//! Where an element is after a change.
ghost use Rattle.std.specs.Prelude.{◌≡◌, ◌≤◌, ◌+◌, ◌++◌, ◌∷◌, suc, All, IfSome, length};
ghost use Rattle.std.specs.Option.{option_copied};
ghost use Rattle.xml_tree.specs.declared.path.TheConstants.{PATH_LIMIT};
ghost use Rattle.edit_ops.specs.MovedPaths.{path_below, shift_after_remove, shift_after_insert};
ghost use Rattle.edit_ops.specs.MovedPaths.{moved, change_path_below, if_none_then};
ghost use Rattle.xml_tree.specs.Edits.{last_number, parent_path};

use crate::change::Change;
use xml_tree::Path;

// The rest of a path after a place, where the path begins with the place.
fn path_below<'a>(place: &[usize], path: &'a [usize]) -> Option<&'a [usize]>
    ensures exact { option_copied result ≡ path_below place.now path.now }
    ensures completes_path { IfSome result (λ rest. path.now ≡ place.now ++ rest.now) }
{
    match place.split_first() {
        None => Some(path),
        Some((first, place)) => match path.split_first() {
            None => None,
            Some((number, below)) => {
                if first != number {
                    return None;
                }
                path_below(place, below)
            }
        },
    }
}

// The path with these numbers appended.
fn append_numbers(path: Path, numbers: &[usize]) -> Path
    requires { length path + length numbers.now ≤ PATH_LIMIT }
    ensures exact { result ≡ path ++ numbers.now }
{
    let mut made = path;
    for number in numbers {
        match made.child(*number) {
            Some(longer) => made = longer,
            None => unreachable!(),
        }
    }
    made
}

/// The path of a place, then a number, and more numbers. Together they are at most `PATH_LIMIT`.
/// Does not allocate.
pub fn path_through(place: &Path, number: usize, below: &[usize]) -> Path
    requires { length place.now + suc (length below.now) ≤ PATH_LIMIT }
    ensures exact { result ≡ place.now ++ (number ∷ below.now) }
{
    match place.child(number) {
        Some(path) => append_numbers(path, below),
        None => unreachable!(),
    }
}

// The path after an insertion in a gap of the element at `parent`.
fn path_after_insertion(path: &Path, parent: &Path, gap: usize) -> Path
    requires { All (λ n. n ≤ 4294967295) path.now }
    ensures exact { result ≡ change_path_below (shift_after_insert gap) parent.now path.now }
{
    let rest = match path_below(parent.numbers(), path.numbers()) {
        None => return path.copy(),
        Some(rest) => rest,
    };
    match rest.split_first() {
        None => path.copy(),
        Some((number, below)) => {
            if *number < gap {
                return path.copy();
            }
            path_through(parent, *number + 1, below)
        }
    }
}

// The path after the child `gone` of the element at `parent` was removed.
fn path_after_removal(path: &Path, parent: &Path, gone: usize) -> Path
    ensures exact { result ≡ change_path_below (shift_after_remove gone) parent.now path.now }
{
    let rest = match path_below(parent.numbers(), path.numbers()) {
        None => return path.copy(),
        Some(rest) => rest,
    };
    match rest.split_first() {
        None => path.copy(),
        Some((number, below)) => {
            if *number <= gone {
                return path.copy();
            }
            path_through(parent, *number - 1, below)
        }
    }
}

// The path after the element at a place, which isn't the root, was removed: None if it leads
// there or through it.
#[tactic(auto, using(crate::proofs::WayLemmas::parents))]
fn path_after_cut(path: &Path, place: &Path) -> Option<Path>
    ensures exact { result ≡ if_none_then (path_below place.now path.now)
        (change_path_below (shift_after_remove (last_number place.now)) (parent_path place.now)
        path.now) }
{
    if path_below(place.numbers(), path.numbers()).is_some() {
        return None;
    }
    match place.split_last() {
        None => None,
        Some((parent, gone)) => Some(path_after_removal(path, &parent, gone)),
    }
}

/// Where the element at a path is after a change: None exactly when it, or an ancestor of it, was
/// removed or replaced, or the document was created or removed. No number of the path is
/// above 4,294,967,295. Does not allocate.
pub fn moved(path: &Path, change: &Change) -> Option<Path>
    requires { All (λ n. n ≤ 4294967295) path.now }
    ensures exact { result ≡ moved path.now change.now }
{
    match change {
        Change::CreateDocument { .. } => None,
        Change::Insert { parent, gap, .. } => Some(path_after_insertion(path, parent, *gap)),
        Change::Replace { at, .. } => {
            if path_below(at.numbers(), path.numbers()).is_some() {
                return None;
            }
            Some(path.copy())
        }
        Change::Remove { at } => path_after_cut(path, at),
        Change::SetAttr { .. } => Some(path.copy()),
        Change::DropAttr { .. } => Some(path.copy()),
        Change::RemoveDocument => None,
    }
}
