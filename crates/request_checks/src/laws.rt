//! A request's conditions have one outcome.
ghost use Rattle.std.specs.Prelude.{◌≡◌, ℕ, Bool, List, Option};
ghost use Rattle.http_wire.specs.declared.request.Field.{Field};
ghost use Rattle.request_checks.specs.Conditions.{HasOutcome};
ghost use Rattle.request_checks.specs.declared.conditions.Outcome.{Outcome};

/// A law: the fields of a request have exactly one outcome, given the document's etag, whether the
/// resource exists, and whether the request reads.
pub fn conditions_have_one_outcome()
    ensures at_least_one { (fields : List Field) (tag : Option ℕ) (exists reading : Bool)
        → (outcome : Outcome) × HasOutcome fields tag exists reading outcome }
    ensures at_most_one { (fields : List Field) (tag : Option ℕ) (exists reading : Bool)
        (outcome other : Outcome) → HasOutcome fields tag exists reading outcome
        → HasOutcome fields tag exists reading other → outcome ≡ other }
{}
