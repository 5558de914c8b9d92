//! The fields have one reading by the grammar, and it is the computed one.
ghost use Rattle.std.specs.Prelude.{◌≡◌, ◌↔◌, ℕ, List, Option, Some};
ghost use Rattle.request_checks.specs.Fields.{IsConditionsReading, FieldValue, Preconditions};
ghost use Rattle.request_checks.specs.Fields.{HasFieldValue};
ghost use Rattle.request_checks.specs.readers.Fields.{field_value};

/// A law: the lines of a field say exactly what is computed from them, and nothing else.
pub fn fields_have_one_reading()
    ensures exact { (lines : List (List ℕ)) (value : FieldValue)
        → HasFieldValue lines value ↔ (field_value lines ≡ Some value) }
{}

/// A law: the lines of the two fields have exactly one reading by the grammar.
pub fn conditions_have_one_answer()
    ensures at_least_one { (if_match if_none_match : List (List ℕ))
        → (a : Option Preconditions) × IsConditionsReading if_match if_none_match a }
    ensures at_most_one { (if_match if_none_match : List (List ℕ)) (a b : Option Preconditions)
        → IsConditionsReading if_match if_none_match a
        → IsConditionsReading if_match if_none_match b
        → a ≡ b }
{}
