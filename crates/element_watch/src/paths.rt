//! Paths relative to a place on them.
ghost use Rattle.std.specs.Prelude.{◌≡◌, ◌≤◌, ◌+◌, ◌++◌, IfSome, is_some, length};
ghost use Rattle.std.specs.Option.{option_copied};
ghost use Rattle.xml_tree.specs.declared.path.TheConstants.{PATH_LIMIT};
ghost use Rattle.edit_ops.specs.MovedPaths.{path_below};

use xml_tree::Path;

// The rest of a path after a place, where the path begins with it.
pub(crate) fn path_below<'a>(place: &Path, path: &'a Path) -> Option<&'a [usize]>
    ensures exact { option_copied result ≡ path_below place.now path.now }
    ensures completes_path { IfSome result (λ rest. path.now ≡ place.now ++ rest.now) }
    ensures path_still_fits { IfSome result
        (λ rest. length place.now + length rest.now ≤ PATH_LIMIT) }
{
    path.numbers().strip_prefix(place.numbers())
}

// Whether the element at a path is the one at a place, or is inside it.
pub(crate) fn is_at_or_below(place: &Path, path: &Path) -> bool
    ensures exact { result ≡ is_some (path_below place.now path.now) }
{
    path_below(place, path).is_some()
}
