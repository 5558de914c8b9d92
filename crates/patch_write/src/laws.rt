//! Laws of diff documents, each the contract of a function that does nothing.
ghost use Rattle.std.specs.Prelude.{◌<◌, ◌^◌, List};
ghost use Rattle.xml_tree.specs.Tree.{Tree};
ghost use Rattle.patch_rules.specs.Notices.{IsFirstFreeCandidate, count_declarations};
ghost use Rattle.patch_rules.specs.Notices.{first_free_candidate, is_prefix_declared};

/// The prefix of a diff document is the first of `d`, `d1`, `d2` and so on that none of its
/// operations, and no element in them, declares.
pub fn the_prefix_is_the_first_free()
    ensures first_unused { (os : List Tree) → count_declarations os < 2 ^ 64
        → IsFirstFreeCandidate (is_prefix_declared os)
        (first_free_candidate (is_prefix_declared os) (count_declarations os) 0) }
{}
