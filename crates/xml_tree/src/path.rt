//! Places in a tree.
ghost use Rattle.std.specs.Prelude.{◌≡◌, ◌≤◌, ◌<◌, ◌++◌, [], ◌∷◌, length, IsSome, IfSome, IsTrue};
ghost use Rattle.std.specs.Prelude.{◌↔◌};
ghost use Rattle.std.specs.Option.{option_copied};
ghost use Rattle.xml_tree.specs.Tree.{at};

use crate::tree::Element;
use std::marker::Model;

/// The greatest number of steps in a path.
pub const PATH_LIMIT: usize = 64;

/// A place in a tree: child-element numbers from 0, from the root down. The empty path is the
/// root element.
#[derive(Debug, Drop)]
pub struct Path {
    numbers: [usize; PATH_LIMIT],
    len: usize,
}

impl Model for Path {
    ghost use Rattle.std.specs.Prelude.{ℕ, ◌≤◌, List, take};
    ghost use Rattle.xml_tree.specs.declared.path.TheConstants.{PATH_LIMIT};

    ghost Value = { List ℕ };

    ghost view = { λ p. take p.len p.numbers };

    ghost invariant = { λ p. p.len ≤ PATH_LIMIT };
}

impl Path {
    /// The place of the root element. Does not allocate.
    pub fn root() -> Path
        ensures exact { result ≡ [] }
    {
        Path {
            numbers: [0; PATH_LIMIT],
            len: 0,
        }
    }

    /// The path with one more number: None exactly when it has `PATH_LIMIT` numbers. Does not
    /// allocate.
    pub fn child(&self, number: usize) -> Option<Path>
        ensures some_iff_room { IsSome result ↔ (length self.now < PATH_LIMIT) }
        ensures child_path { IfSome result (λ path. path ≡ self.now ++ number ∷ []) }
    {
        if self.len == PATH_LIMIT {
            return None;
        }
        let mut numbers = self.numbers;
        numbers[self.len] = number;
        Some(Path {
            numbers,
            len: self.len + 1,
        })
    }

    /// The numbers, borrowed. Does not allocate.
    pub fn numbers(&self) -> &[usize]
        ensures exact { result.now ≡ self.now }
        ensures path_is_short { length result.now ≤ PATH_LIMIT }
    {
        &self.numbers[..self.len]
    }

    /// An equal path. Does not allocate.
    pub fn copy(&self) -> Path
        ensures exact { result ≡ self.now }
    {
        Path {
            numbers: self.numbers,
            len: self.len,
        }
    }

    /// Whether two paths have the same numbers. Does not allocate.
    pub fn same(&self, other: &Path) -> bool
        ensures exact { IsTrue result ↔ (self.now ≡ other.now) }
    {
        self.numbers() == other.numbers()
    }

    /// The path of the parent, and the last number: None exactly for the root. Does not allocate.
    pub fn split_last(&self) -> Option<(Path, usize)>
        ensures some_below_root { IsSome result ↔ (0 < length self.now) }
        ensures path_parts { IfSome result (λ parts. self.now ≡ parts.0 ++ parts.1 ∷ []) }
    {
        if self.len == 0 {
            return None;
        }
        let last = self.len - 1;
        let parent = Path {
            numbers: self.numbers,
            len: last,
        };
        Some((parent, self.numbers[last]))
    }
}

/// The element at a path: None exactly when a number has no child element. Does not allocate.
pub fn element_at<'a>(root: &'a Element, path: &Path) -> Option<&'a Element>
    ensures exact { option_copied result ≡ at path.now root.now }
{
    let mut here = root;
    for number in path.numbers() {
        here = here.child_element(*number)?;
    }
    Some(here)
}
