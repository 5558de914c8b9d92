//! What is sent, and what has a place, compared with what a selector means; nothing here runs.
ghost use Rattle.std.specs.Prelude.{◌↔◌, List, ◌∷◌, IsSome, IsTrue};
ghost use Rattle.xml_tree.specs.Tree.{Tree};
ghost use Rattle.node_select.specs.Selection.{FindsNode, selected_element_path};
ghost use Rattle.node_select.specs.declared.selector.Selector.{Selector};
ghost use Rattle.node_select.specs.declared.selector.Step.{Step};
ghost use Rattle.reply_bodies.specs.Nodes.{found_text};
ghost use Rattle.reply_bodies.specs.NodePlaces.{parent_steps, element_has_place};

/// A law: exactly the nodes that a selector finds by its meaning have a text that is sent (RFC
/// 4825, section 6.3).
pub fn texts_are_those_of_found_nodes()
    ensures text_iff_found { (root : Tree) (selector : Selector)
        → IsSome (found_text root selector) ↔ FindsNode root selector }
{}

/// A law: below the root an element has a place exactly where its parent exists (RFC 4825, section
/// 8.2.1).
pub fn elements_have_places_below_their_parents()
    ensures place_iff_parent { (first second : Step) (steps : List Step) (root : Tree)
        → IsTrue (element_has_place (first ∷ second ∷ steps) root)
        ↔ IsSome (selected_element_path (parent_steps (first ∷ second ∷ steps)) root) }
{}
