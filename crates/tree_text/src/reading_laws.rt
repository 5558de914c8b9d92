//! Laws of reading, each the contract of a function that does nothing.
ghost use Rattle.std.specs.Prelude.{◌≡◌, ℕ, List, Result, Ok, Err};
ghost use Rattle.xml_tree.specs.Tree.{Tree};
ghost use Rattle.xml_names.specs.declared.names.Decl.{Decl};
ghost use Rattle.tree_text.specs.Faults.{IsBodyResult, IsTextResult};
ghost use Rattle.tree_text.specs.Spellings.{IsNotUtf8, ReadsTree, ReadsValue, SpellsTree};
ghost use Rattle.tree_text.specs.Spellings.{SpellsValue};
ghost use Rattle.tree_text.specs.declared.fault.TextFault.{TextFault};
ghost use Rattle.tree_text.specs.declared.fault.TextFault.TheVariants as texts;
ghost use Rattle.tree_text.specs.declared.fault.ValueFault.{ValueFault};
ghost use Rattle.tree_text.specs.readers.WholeTexts.{read_body_text, read_document_text};

/// By the grammar all bytes have one answer, in each scope and with each limit of levels: the
/// tree that they spell, or one fault at one place (XML 1.0; Namespaces in XML 1.0). Reading from
/// left to right returns this answer.
pub fn texts_have_one_answer()
    ensures answer_is_exact { (depth : ℕ) (scope : List (List Decl)) (bytes : List ℕ)
        → IsTextResult depth scope bytes (read_document_text depth scope bytes) }
    ensures at_most_one { (depth : ℕ) (scope : List (List Decl)) (bytes : List ℕ)
        (a b : Result Tree TextFault)
        → IsTextResult depth scope bytes a → IsTextResult depth scope bytes b → a ≡ b }
{}

/// By the grammar all bytes have one answer as an attribute body: the value that they spell, or
/// one fault.
pub fn bodies_have_one_answer()
    ensures answer_is_exact { (bytes : List ℕ) → IsBodyResult bytes (read_body_text bytes) }
    ensures at_most_one { (bytes : List ℕ) (a b : Result (List ℕ) ValueFault) → IsBodyResult bytes a
        → IsBodyResult bytes b → a ≡ b }
{}

/// The answer by the grammar is what bytes are read as, wherever their faults are: the tree or the
/// value that they spell; that they aren't UTF-8; or another fault, where neither holds. And what
/// bytes spell is the answer, as is that they aren't UTF-8.
pub fn bytes_are_read_as_they_spell()
    ensures tree_is_read { (depth : ℕ) (scope : List (List Decl)) (bytes : List ℕ)
        (answer : Result Tree TextFault)
        → IsTextResult depth scope bytes answer → ReadsTree depth scope bytes answer }
    ensures spelled_tree { (depth : ℕ) (scope : List (List Decl)) (bytes : List ℕ) (tree : Tree)
        → SpellsTree depth scope bytes tree → IsTextResult depth scope bytes (Ok tree) }
    ensures not_utf8 { (depth : ℕ) (scope : List (List Decl)) (bytes : List ℕ)
        → IsNotUtf8 depth scope bytes → IsTextResult depth scope bytes (Err texts.NotUtf8) }
    ensures value_is_read { (bytes : List ℕ) (answer : Result (List ℕ) ValueFault)
        → IsBodyResult bytes answer → ReadsValue bytes answer }
    ensures spelled_value { (bytes value : List ℕ)
        → SpellsValue bytes value → IsBodyResult bytes (Ok value) }
{}
