//! Laws of diff documents, from the text of a path to a whole document; each is the contract of a
//! function that does nothing.
ghost use Rattle.std.specs.Prelude.{◌≡◌, ◌≢◌, ℕ, ◌<◌, ◌^◌, Bool, true, List, [], ◌∷◌, Option, Some};
ghost use Rattle.std.specs.Prelude.{None, IsSome, Ok, Result, decimal, encode_utf8_all, unwrap_or};
ghost use Rattle.xml_names.specs.Attributes.{has_qname};
ghost use Rattle.std.specs.List.{AllByRecursion};
ghost use Rattle.xml_names.specs.Characters.{has_only_chars};
ghost use Rattle.xml_tree.specs.Edits.{attr_at};
ghost use Rattle.xml_tree.specs.PathTexts.{path_text};
ghost use Rattle.xml_tree.specs.Proper.{IsProperTree};
ghost use Rattle.xml_names.specs.Scopes.{in_scope_bindings, bound_uri};
ghost use Rattle.xml_tree.specs.TreeScopes.{scope_at};
ghost use Rattle.xml_tree.specs.Tree.{Tree, at};
ghost use Rattle.xml_names.specs.declared.names.Attr.{Attr};
ghost use Rattle.xml_names.specs.declared.names.Decl.{Decl};
ghost use Rattle.xml_names.specs.declared.names.Name.{Name};
ghost use Rattle.edit_ops.specs.Changes.{FitsTree, edited};
ghost use Rattle.edit_ops.specs.declared.change.Change.{Change};
ghost use Rattle.node_select.specs.Faults.{IsPatchSelectorAnswer};
ghost use Rattle.node_select.specs.declared.fault.SelectorFault.{SelectorFault};
ghost use Rattle.node_select.specs.declared.selector.PatchSelector.{PatchSelector};
ghost use Rattle.edit_ops.specs.Notes.{AreNotesOf, Note, note_of, tag_after, tree_after};
ghost use Rattle.edit_ops.specs.DiffOperations.{attr_path_text, operation};
ghost use Rattle.patch_rules.specs.PatchOperations as words;
ghost use Rattle.patch_rules.specs.PatchOperations.{AtAttr, AtElement};
ghost use Rattle.patch_rules.specs.readers.AppliedOperations.{apply_operation, selector_reading};
ghost use Rattle.patch_rules.specs.Notices.{aggregate_notice, count_declarations, gone_notice};
ghost use Rattle.patch_rules.specs.Notices.{operations, patching_notice, prefix_for, tags_notice};
ghost use Rattle.patch_rules.specs.Replay.{ReplayAnswer, ReplayFault, Fetch, ReplicaContents};
ghost use Rattle.patch_rules.specs.Replay.{Removed};
ghost use Rattle.patch_rules.specs.Replay.{IsReplayOutcome, Same};
ghost use Rattle.patch_rules.specs.Selectors.{IsSelectorReader, Reading};
ghost use Rattle.patch_rules.specs.readers.Replay.{apply_operations, replay_outcome};
ghost use Rattle.patch_laws.specs.Premises.{HasFewNotes, AreReadablePositions, AreDiffableTrees};
ghost use Rattle.patch_laws.specs.Premises.{IsReplicaTree};
ghost use Rattle.patch_laws.specs.Premises.{IsDiffableTree, BindsAlike};
ghost use Rattle.patch_laws.specs.Premises.{scope_around_operations};
ghost use Rattle.patch_laws.specs.ReplayLaws.{HasReplicaTree, IsDiffPrefix, NoticeReadsBack};
ghost use Rattle.patch_laws.specs.ReplayLaws.{answer_of_notes};
ghost use Rattle.patch_laws.specs.SelectedNodes.{SelectorReadsAs, selected_location};

/// A law: by the grammar, the text of an operation's selector has one meaning: the meaning that is
/// read from left to right, which agrees with the one answer of the grammar (RFC 5261, section
/// 4.1).
pub fn selectors_are_those_of_the_grammar()
    ensures readings_exist { IsSelectorReader selector_reading }
    ensures readings_agree { (read other : List ℕ → Option Reading) → IsSelectorReader read
        → IsSelectorReader other → (sel : List ℕ) → has_only_chars sel ≡ true
        → read sel ≡ other sel }
    ensures reading_is_answer { (c : List (List Decl)) (sel : List ℕ) → has_only_chars sel ≡ true
        → (answer : Result PatchSelector SelectorFault)
        × IsPatchSelectorAnswer (in_scope_bindings c) (unwrap_or (bound_uri c []) [])
        (encode_utf8_all sel) answer × SelectorReadsAs c sel answer }
{}

/// A law: the text of a path selects, in any scope, the element at the path; with an attribute's
/// name after it, in a scope that binds what the element's scope binds, exactly the attribute of
/// that name.
pub fn paths_are_selected()
    ensures element_path { (c : List (List Decl)) (p : List ℕ) (t : Tree) → AreReadablePositions p
        → IsSome (at p t) → selected_location c (path_text p) t ≡ Some (AtElement p) }
    ensures attribute_path { (c : List (List Decl)) (p : List ℕ) (n : Name) (t k : Tree)
        → AreReadablePositions p → at p t ≡ Some k → IsProperTree [] t → IsSome (attr_at p n t)
        → BindsAlike (scope_at p t) c
        → (f : Attr → Bool) × (selected_location c (attr_path_text p n) t ≡ Some (AtAttr p f))
        × AllByRecursion (λ a. f a ≡ has_qname n a) k.attrs }
{}

/// A law: the operation of a change record, in a diff document, makes exactly the tree after the
/// change from the tree before it, and so do the operations of records in order.
pub fn operations_make_changes()
    ensures one_change { (prefix uri : List ℕ) (previous next : ℕ) (t : Tree) (change : Change)
        → prefix ≢ [] → FitsTree t change → IsDiffableTree t → IsDiffableTree (edited t change)
        → apply_operation (scope_around_operations prefix uri)
        (operation prefix (note_of previous next t change)) t ≡ Ok (edited t change) }
    ensures all_in_order { (prefix uri : List ℕ) (count tag : ℕ) (t : Tree) (ns : List Note)
        → prefix ≢ [] → AreNotesOf tag t ns → AreDiffableTrees t ns
        → apply_operations count (scope_around_operations prefix uri) (operations prefix ns) t
        ≡ Ok (tree_after t ns) }
{}

/// A law: no operation of a diff document declares the document's prefix.
pub fn prefixes_are_free()
    ensures free_of_declarations { (ns : List Note) → count_declarations (operations [] ns) < 2 ^ 64
        → IsDiffPrefix (prefix_for ns) ns }
{}

/// A law: a replica that has the tree and the tag before some change records, and applies their
/// diff document, in either patching mode, then has the tree and the tag after them.
pub fn notices_are_replayed()
    ensures step_by_step { (is_mine : List ℕ → Bool) (root sel : List ℕ) (tag : ℕ) (t : Tree)
        (ns : List Note) → is_mine sel ≡ true → AreNotesOf tag t ns → AreDiffableTrees t ns
        → HasFewNotes ns
        → IsReplayOutcome is_mine (patching_notice root sel tag ns) (Some (decimal tag, t))
        (Ok (answer_of_notes ns, Some (decimal (tag_after tag ns), tree_after t ns))) }
    ensures aggregated { (is_mine : List ℕ → Bool) (root sel : List ℕ) (tag : ℕ) (t : Tree)
        (ns : List Note) → is_mine sel ≡ true → AreNotesOf tag t ns → AreDiffableTrees t ns
        → HasFewNotes ns
        → IsReplayOutcome is_mine (aggregate_notice root sel tag ns) (Some (decimal tag, t))
        (Ok (answer_of_notes ns, Some (decimal (tag_after tag ns), tree_after t ns))) }
{}

/// A law: the text of such a diff document, where the root and the document's name consist of
/// Chars, is parsed as exactly that tree, which has the form of a diff document and is proper.
pub fn notices_are_read_back()
    ensures step_by_step { (root sel : List ℕ) (tag : ℕ) (t : Tree) (ns : List Note)
        → has_only_chars root ≡ true → has_only_chars sel ≡ true → AreNotesOf tag t ns
        → AreDiffableTrees t ns
        → HasFewNotes ns
        → NoticeReadsBack (patching_notice root sel tag ns) }
    ensures aggregated { (root sel : List ℕ) (tag : ℕ) (t : Tree) (ns : List Note)
        → has_only_chars root ≡ true → has_only_chars sel ≡ true → AreNotesOf tag t ns
        → AreDiffableTrees t ns
        → HasFewNotes ns
        → NoticeReadsBack (aggregate_notice root sel tag ns) }
{}

/// A law: the diff document that says a document is gone leaves the replica empty; a diff document
/// of tags alone asks for a fetch of the last tag and changes nothing, and without change records
/// it says that nothing changed. Their texts are read back, too.
pub fn other_notices_are_replayed()
    ensures gone_is_dropped { (is_mine : List ℕ → Bool) (root sel : List ℕ) (tag : ℕ) (t : Tree)
        → is_mine sel ≡ true
        → IsReplayOutcome is_mine (gone_notice root sel tag) (Some (decimal tag, t))
        (Ok (Removed, None)) }
    ensures tags_need_fetch { (is_mine : List ℕ → Bool) (root sel : List ℕ) (tag : ℕ) (t : Tree)
        (n : Note) (ns : List Note) → is_mine sel ≡ true
        → IsReplayOutcome is_mine (tags_notice root sel tag (n ∷ ns)) (Some (decimal tag, t))
        (Ok (Fetch (decimal (tag_after tag (n ∷ ns))), Some (decimal tag, t))) }
    ensures same_version_stays { (is_mine : List ℕ → Bool) (root sel : List ℕ) (tag : ℕ) (t : Tree)
        → IsReplayOutcome is_mine (tags_notice root sel tag []) (Some (decimal tag, t))
        (Ok (Same, Some (decimal tag, t))) }
    ensures gone_read { (root sel : List ℕ) (tag : ℕ) → has_only_chars root ≡ true
        → has_only_chars sel ≡ true
        → NoticeReadsBack (gone_notice root sel tag) }
    ensures tags_read { (root sel : List ℕ) (tag : ℕ) (ns : List Note) → has_only_chars root ≡ true
        → has_only_chars sel ≡ true → NoticeReadsBack (tags_notice root sel tag ns) }
{}

/// A law: a diff document has an outcome for a replica, namely the outcome where its selectors are
/// read from left to right; and where the diff document is proper, it has no other.
pub fn notices_have_one_outcome()
    ensures outcome_exists { (is_mine : List ℕ → Bool) (notice : Tree) (held : ReplicaContents)
        → IsReplayOutcome is_mine notice held (replay_outcome is_mine notice held) }
    ensures at_most_one { (is_mine : List ℕ → Bool) (notice : Tree) (held : ReplicaContents)
        (a b : Result (ReplayAnswer × ReplicaContents) ReplayFault)
        → IsProperTree [] notice → IsReplayOutcome is_mine notice held a
        → IsReplayOutcome is_mine notice held b
        → a ≡ b }
{}

/// A law: a replica stays proper and at most `MAX_LEVELS` levels deep, whoever wrote the diff
/// document or the operation that is applied, and whatever its selector is taken to say.
pub fn replicas_stay_sound()
    ensures of_one_operation { (read : List ℕ → Option Reading) (c : List (List Decl))
        (o t u : Tree) → IsProperTree c o → IsProperTree [] t
        → words.apply_operation read c o t ≡ Ok u
        → IsReplicaTree u }
    ensures whole_diff { (is_mine : List ℕ → Bool) (notice : Tree) (held new : ReplicaContents)
        (answer : ReplayAnswer) → IsProperTree [] notice → HasReplicaTree held
        → IsReplayOutcome is_mine notice held (Ok (answer, new)) → HasReplicaTree new }
{}

/// A law: what is proper in a scope is proper in another that has the first one's bindings and
/// default namespace (Namespaces in XML 1.0, section 6).
pub fn proper_where_names_are_bound_alike()
    ensures stays_proper { (c d : List (List Decl)) (e : Tree) → BindsAlike c d → IsProperTree c e
        → IsProperTree d e }
{}
