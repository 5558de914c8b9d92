//! Laws of prints, each the contract of a function that does nothing.
ghost use Rattle.std.specs.Prelude.{◌≡◌, ◌≤◌, ◌<◌, ◌+◌, ◌++◌, ℕ, List, None, Ok, IsTrue};
ghost use Rattle.std.specs.Prelude.{encode_utf8_all};
ghost use Rattle.xml_grammar.specs.ParseResults.{IsParsedAs};
ghost use Rattle.xml_names.specs.Characters.{has_only_chars};
ghost use Rattle.xml_tree.specs.Print.{print, document_print};
ghost use Rattle.xml_tree.specs.Proper.{IsProperTree};
ghost use Rattle.xml_names.specs.Scopes.{bound_uri, xmlns_prefix};
ghost use Rattle.xml_tree.specs.TreeScopes.{scope_at};
ghost use Rattle.xml_tree.specs.Tree.{Tree, height};
ghost use Rattle.xml_names.specs.declared.names.Decl.{Decl};
ghost use Rattle.tree_text.specs.Faults.{IsBodyResult, IsTextResult};
ghost use Rattle.tree_text.specs.Grammar.{document, unquoted_value};
ghost use Rattle.tree_text.specs.FaultKinds.{fault_ranking};
ghost use Rattle.tree_print.specs.AttributeBodyPrints.{body_print};

/// Prints are read back: the bytes of the print of a tree, as a document or by itself, are read
/// as the tree, in the scope in which it is proper and with at least as many levels as it has;
/// the bytes of the print of a value that consists of Chars are read as the value. The scope may
/// bind any prefix but `xmlns`.
pub fn prints_are_read_back()
    ensures for_document { (depth : ℕ) (scope : List (List Decl)) (root : Tree)
        → bound_uri scope xmlns_prefix ≡ None → IsProperTree scope root → height root ≤ depth
        → IsTextResult depth scope (encode_utf8_all (document_print root)) (Ok root) }
    ensures for_element { (depth : ℕ) (scope : List (List Decl)) (root : Tree)
        → bound_uri scope xmlns_prefix ≡ None → IsProperTree scope root → height root ≤ depth
        → IsTextResult depth scope (encode_utf8_all (print root)) (Ok root) }
    ensures for_value { (value : List ℕ) → IsTrue (has_only_chars value)
        → IsBodyResult (encode_utf8_all (body_print value)) (Ok value) }
{}

/// By the grammar a print spells what was printed, nothing else, and has no fault (XML 1.0;
/// Namespaces in XML 1.0).
pub fn prints_spell_what_was_printed()
    ensures for_document { (depth : ℕ) (scope : List (List Decl)) (root : Tree)
        → bound_uri scope xmlns_prefix ≡ None → IsProperTree scope root → height root ≤ depth
        → (n : ℕ) → depth + 1 < n
        → IsParsedAs (fault_ranking depth) (document n scope) (document_print root) root }
    ensures for_element { (depth : ℕ) (scope : List (List Decl)) (root : Tree)
        → bound_uri scope xmlns_prefix ≡ None → IsProperTree scope root → height root ≤ depth
        → (n : ℕ) → depth + 1 < n
        → IsParsedAs (fault_ranking depth) (document n scope) (print root) root }
    ensures for_value { (value : List ℕ) → IsTrue (has_only_chars value)
        → IsParsedAs (fault_ranking 0) unquoted_value (body_print value) value }
{}

/// No scope in a proper tree binds `xmlns`, unless the scope around the tree does.
pub fn scopes_leave_xmlns_unbound()
    ensures leaves_xmlns_unbound { (path : List ℕ) (scope : List (List Decl)) (root : Tree)
        → bound_uri scope xmlns_prefix ≡ None → IsProperTree scope root
        → bound_uri (scope ++ scope_at path root) xmlns_prefix ≡ None }
{}
