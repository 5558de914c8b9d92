//! Laws of selection among the children of an element, for children of any type: which child a
//! step selects, and which gaps are lawful for a new child (RFC 4825, sections 6.3, 8.2 and 8.4).
//! Each is the contract of a function that does nothing.
ghost use Rattle.std.specs.Prelude.{◌≡◌, ◌↔◌, ℕ, ◌≤◌, Bool, IsTrue, List, length, take, insert};
ghost use Rattle.std.specs.Prelude.{remove, slice_set, slice_get, count_by, None, Some, Result};
ghost use Rattle.node_select.specs.StepSelection.{HaveSameTestResults, IsAtPosition, Matches};
ghost use Rattle.node_select.specs.StepSelection.{Selects, StepTests, selected_number};
ghost use Rattle.node_select.specs.InsertionPoints.{AllowsInsertion, IsLawfulInsertion};
ghost use Rattle.node_select.specs.InsertionPoints.{IsInsertionPlan};
ghost use Rattle.node_select.specs.InsertionPoints.{insertion_plan};
ghost use Rattle.node_select.specs.Edits.{IsNextMatch, IsPassedOver, number_after_insertion};

/// A step selects at most one child, and the computed selection is the relation.
pub fn steps_select_one_child<A>()
    ensures answer_is_one { (step : StepTests A) (child_elements : List A) (i k : ℕ)
        → Selects step child_elements i → Selects step child_elements k → i ≡ k }
    ensures computed_path { (step : StepTests A) (child_elements : List A) (i : ℕ)
        → (selected_number step child_elements ≡ Some i) ↔ Selects step child_elements i }
    ensures position_from_one { (step : StepTests A) (child_elements : List A) (i : ℕ)
        → step.position ≡ Some 0 → Selects step child_elements i → ⊥ }
{}

/// Children that the tests can't distinguish, one by one, match and are selected alike. So an
/// edit inside a child that leaves its name and attributes changes no selection among its
/// siblings.
pub fn like_children_are_selected_alike<A, B>()
    ensures match_alike { (step : StepTests A) (step' : StepTests B)
        (child_elements : List A) (child_elements' : List B) (i : ℕ)
        → HaveSameTestResults step step' child_elements child_elements'
        → Matches step child_elements i ↔ Matches step' child_elements' i }
    ensures selected_alike { (step : StepTests A) (step' : StepTests B)
        (child_elements : List A) (child_elements' : List B) (i : ℕ)
        → HaveSameTestResults step step' child_elements child_elements'
        → Selects step child_elements i ↔ Selects step' child_elements' i }
{}

/// Which gaps are lawful for a new child, by the child, the matching names before the gap, and
/// the existing children. With a position the lawful gaps are an interval; without one they are
/// all gaps or none.
pub fn lawful_gaps_are_computed<A>()
    ensures lawful_iff { (step : StepTests A) (child_elements : List A) (new : A) (gap : ℕ)
        → gap ≤ length child_elements
        → IsLawfulInsertion step child_elements new gap
        ↔ (IsTrue (step.named new) × IsTrue (step.tested new)
        × IsAtPosition step.position (count_by step.named (take gap child_elements))
        × AllowsInsertion step child_elements) }
    ensures gaps_are_interval { (step : StepTests A) (child_elements : List A) (new : A)
        (i j k : ℕ)
        → k ≤ length child_elements → i ≤ j → j ≤ k
        → IsLawfulInsertion step child_elements new i
        → IsLawfulInsertion step child_elements new k
        → IsLawfulInsertion step child_elements new j }
    ensures gaps_are_alike { (step : StepTests A) (child_elements : List A) (new : A) (i j : ℕ)
        → step.position ≡ None → i ≤ length child_elements → j ≤ length child_elements
        → IsLawfulInsertion step child_elements new i
        → IsLawfulInsertion step child_elements new j }
    ensures put_again { (step : StepTests A) (child_elements : List A) (new : A) (gap : ℕ)
        → gap ≤ length child_elements
        → IsLawfulInsertion step child_elements new gap
        → Selects step (insert child_elements gap new) gap
        × (slice_set (insert child_elements gap new) gap new ≡ insert child_elements gap new) }
{}

/// There is one plan over a number of gaps, and where both properties are tests it is the
/// computed one.
pub fn plans_are_computed<E>()
    ensures answer_is_one { (unlawful invalid : E) (lawful valid : ℕ → Bool) (gaps : ℕ)
        (plan plan' : Result ℕ E)
        → IsInsertionPlan unlawful invalid (λ j. IsTrue (lawful j)) (λ j. IsTrue (valid j)) gaps
        plan
        → IsInsertionPlan unlawful invalid (λ j. IsTrue (lawful j)) (λ j. IsTrue (valid j)) gaps
        plan'
        → plan ≡ plan' }
    ensures computed_path { (unlawful invalid : E) (lawful valid : ℕ → Bool) (gaps : ℕ)
        → IsInsertionPlan unlawful invalid (λ j. IsTrue (lawful j)) (λ j. IsTrue (valid j)) gaps
        (insertion_plan unlawful invalid lawful valid gaps) }
{}

/// What a step selects after an edit among the children: a child that it passes over only shifts
/// the numbers; a replacement of the selected child is selected where it passes both tests; and
/// once the selected child is removed, without a position nothing matches, and with one the next
/// child of that name is at the position.
pub fn selection_follows_edits<A>()
    ensures put_in { (step : StepTests A) (child_elements : List A) (gap : ℕ) (new : A) (i : ℕ)
        → gap ≤ length child_elements → IsPassedOver step new
        → Selects step (insert child_elements gap new) (number_after_insertion gap i)
        ↔ Selects step child_elements i }
    ensures taken_out { (step : StepTests A) (child_elements : List A) (j : ℕ)
        (child_element : A) (i : ℕ)
        → slice_get child_elements j ≡ Some child_element
        → IsPassedOver step child_element
        → Selects step child_elements (number_after_insertion j i)
        ↔ Selects step (remove child_elements j) i }
    ensures replaced_stays_selected { (step : StepTests A) (child_elements : List A) (j : ℕ)
        (new : A)
        → Selects step child_elements j
        → Selects step (slice_set child_elements j new) j
        ↔ (IsTrue (step.named new) × IsTrue (step.tested new)) }
    ensures selected_out { (step : StepTests A) (child_elements : List A) (j i : ℕ)
        → step.position ≡ None → Selects step child_elements j
        → Matches step (remove child_elements j) i → ⊥ }
    ensures next_moves_up { (step : StepTests A) (n : ℕ) (child_elements : List A) (j i : ℕ)
        → step.position ≡ Some n → Selects step child_elements j
        → Matches step (remove child_elements j) i
        ↔ IsNextMatch step (remove child_elements j) j i }
{}
