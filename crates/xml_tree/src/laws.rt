//! Laws of places and edits, each the contract of a function that does nothing.
ghost use Rattle.std.specs.Prelude.{◌≡◌, ℕ, suc, max, ◌+◌, ◌≤◌, List, [], ◌∷◌, ◌++◌, length, Some};
ghost use Rattle.std.specs.Prelude.{IsSome, option_map, option_and_then, insert, remove};
ghost use Rattle.std.specs.List.{filter_map};
ghost use Rattle.xml_tree.specs.Tree.{Content, Tree, at, height, child_elements, child_elements_of};
ghost use Rattle.xml_names.specs.Attributes.{change_item};
ghost use Rattle.xml_tree.specs.Edits.{change_element, change_at, cut, put, put_in, put_over};
ghost use Rattle.xml_tree.specs.Edits.{take_in};
ghost use Rattle.xml_tree.specs.Edits.{with_comment, with_elem, with_text};
ghost use Rattle.xml_tree.specs.Nodes.{AreNormalized, content_of, elem_of, nodes_of};
ghost use Rattle.xml_tree.specs.DivergingPaths.{AreDiverging};
ghost use Rattle.xml_tree.specs.declared.tree.Node.{Node};

/// A change at a path leaves what is at a diverging path.
pub fn other_places_stay()
    ensures other_unchanged { (p q : List ℕ) (f : Tree → Tree) (t : Tree) → AreDiverging p q
        → at q (change_at p f t) ≡ at q t }
{}

/// What a change made of an element, or put in its place, is there.
pub fn what_was_made_is_there()
    ensures holds_changed { (p : List ℕ) (f : Tree → Tree) (t : Tree)
        → at p (change_at p f t) ≡ option_map f (at p t) }
    ensures holds_put { (p : List ℕ) (w t : Tree) → IsSome (at p t)
        → at p (put_over p w t) ≡ Some w }
{}

/// A longer path leads on from the element at its beginning, and so does a change there.
pub fn paths_go_on()
    ensures place_further_down { (p q : List ℕ) (t : Tree)
        → at (p ++ q) t ≡ option_and_then (at q) (at p t) }
    ensures change_further_down { (p q : List ℕ) (f : Tree → Tree) (t : Tree)
        → change_at (p ++ q) f t ≡ change_at p (change_at q f) t }
{}

/// A path has fewer numbers than the tree has levels.
pub fn paths_are_short()
    ensures path_within_height { (p : List ℕ) (e t : Tree) → at p t ≡ Some e
        → length p + height e ≤ height t }
{}

/// A content and its nodes, which are normal, determine each other; and the child elements are
/// the elements among the nodes.
pub fn nodes_are_the_content()
    ensures nodes_are_normal { (c : Content) → AreNormalized (nodes_of c) }
    ensures nodes_make_content { (c : Content) → content_of (nodes_of c) ≡ c }
    ensures normal_nodes_return { (ns : List Node) → AreNormalized ns
        → nodes_of (content_of ns) ≡ ns }
    ensures elements_of_nodes { (c : Content) → child_elements c ≡ filter_map elem_of (nodes_of c) }
{}

/// The child elements after edits.
pub fn children_after_edits()
    ensures child_put { (j : ℕ) (e : Tree) (c : Content) → j ≤ length (child_elements c)
        → child_elements (put j e c) ≡ insert (child_elements c) j e }
    ensures child_cut { (i : ℕ) (c : Content)
        → child_elements (cut i c) ≡ remove (child_elements c) i }
    ensures child_changed { (i : ℕ) (f : Tree → Tree) (c : Content)
        → child_elements (change_element i f c) ≡ change_item i f (child_elements c) }
    ensures element_appended { (e : Tree) (c : Content)
        → child_elements (with_elem e c) ≡ child_elements c ++ e ∷ [] }
    ensures text_appended { (s : List ℕ) (c : Content)
        → child_elements (with_text s c) ≡ child_elements c }
    ensures comment_appended { (s : List ℕ) (c : Content)
        → child_elements (with_comment s c) ≡ child_elements c }
{}

/// How many levels a tree has after an edit at a path that has an element.
pub fn heights_after_edits()
    ensures put_in { (p : List ℕ) (j : ℕ) (k e t : Tree) → at p t ≡ Some e
        → j ≤ length (child_elements_of e)
        → height (put_in p j k t) ≡ max (height t) (length p + suc (height k)) }
    ensures put_over { (p : List ℕ) (w e t : Tree) → at p t ≡ Some e
        → height (put_over p w t) ≤ max (height t) (length p + height w) }
    ensures take_in { (p : List ℕ) (i : ℕ) (e t : Tree) → at p t ≡ Some e
        → height (take_in p i t) ≤ height t }
{}
