//! Places as linked steps.
ghost use Rattle.std.specs.Prelude.{◌≡◌, ◌≤◌, ◌++◌, ◌∷◌, [], length, IsSome, IfSome};
ghost use Rattle.xml_tree.specs.declared.path.TheConstants.{PATH_LIMIT};

use std::marker::Model;
use xml_tree::Path;

/// A place in a tree as linked steps, so that nothing is copied on entering an element. Contracts
/// see the numbers of its path.
#[derive(Drop)]
#[cycle(trail)]
pub(crate) struct Trail<'a> {
    step: TrailStep<'a>,
}

#[derive(Drop)]
#[cycle(trail)]
enum TrailStep<'a> {
    // Where the trail begins.
    At(&'a Path),
    // The child of this number.
    Child(&'a Trail<'a>, usize),
}

impl<'a> Model for Trail<'a> {
    ghost use Rattle.std.specs.Prelude.{ℕ, List, length};
    ghost use Rattle.std.specs.Coded.{coded_list, coded_ℕ};
    ghost use Rattle.std.proofs.Common.{arith, length-append};

    ghost Value = { List ℕ };

    ghost coded = { coded_list coded_ℕ };

    ghost use Rattle.usage_docs.specs.inner.PathTrails.{trail_numbers};

    ghost view = { λ t. trail_numbers t.step };

    ghost size = { length };

    ghost size_decreases = { λ t h. Prim.grind (arith, length-append) };
}

impl<'a> Trail<'a> {
    /// A trail that begins at this place.
    pub(crate) fn at(path: &'a Path) -> Trail<'a>
        ensures exact { result ≡ path.now }
    {
        Trail {
            step: TrailStep::At(path),
        }
    }

    /// The trail to the child of this number.
    pub(crate) fn child<'b>(&'b self, number: usize) -> Trail<'b>
        ensures exact { result ≡ self.now ++ number ∷ [] }
    {
        Trail {
            step: TrailStep::Child(&*self, number),
        }
    }

    /// The path of the place: there is one where it has at most `PATH_LIMIT` numbers.
    pub(crate) fn path(&self) -> Option<Path>
        ensures short_is_some { length self.now ≤ PATH_LIMIT → IsSome result }
        ensures path_to_place { IfSome result (λ path. path ≡ self.now) }
    {
        match self.step {
            TrailStep::At(path) => Some(path.copy()),
            TrailStep::Child(outer, number) => outer.path()?.child(number),
        }
    }
}
