//! The outcome of a request's conditions (RFC 9110, section 13.2.2).
ghost use Rattle.std.specs.Prelude.{◌≡◌, IfOk, Option};
ghost use Rattle.std.specs.Option.{option_map_or};
ghost use Rattle.request_checks.specs.Fields.{IsConditionsReading, Preconditions};
ghost use Rattle.request_checks.specs.Verdicts.{precondition_verdict};
ghost use Rattle.request_checks.specs.Conditions.{HasOutcome, outcome_of_verdict};
ghost use Rattle.request_checks.specs.declared.conditions.Outcome.TheVariants.{Unreadable};

use crate::field_values::copy_values;
use crate::{ConditionFault, Outcome, Verdict, condition, read_conditions};
use http_wire::Request;
use std::alloc::{AllocError, Global};
use xcap_io::Bytes;

fn outcome_of_verdict(verdict: Verdict) -> Outcome
    ensures exact { result ≡ outcome_of_verdict verdict }
{
    match verdict {
        Verdict::Go => Outcome::Go,
        Verdict::Same => Outcome::NotModified,
        Verdict::Failed => Outcome::Failed,
    }
}

fn outcome_by_lines(
    alloc: Global,
    if_match: &[Bytes],
    if_none_match: &[Bytes],
    tag: Option<u64>,
    exists: bool,
    reading: bool,
) -> Result<Outcome, AllocError>
    ensures outcome_of_lines { IfOk result
        (λ o. (said : Option Preconditions)
        × IsConditionsReading if_match.now if_none_match.now said
        × (o ≡ option_map_or
        (λ conditions. outcome_of_verdict (precondition_verdict conditions tag exists reading)) said
        Unreadable)) }
{
    match read_conditions(alloc, if_match, if_none_match) {
        Ok(conditions) => Ok(outcome_of_verdict(condition(&conditions, tag, exists, reading))),
        Err(ConditionFault::BadCondition) => Ok(Outcome::Unreadable),
        Err(ConditionFault::NoMemory) => Err(AllocError),
    }
}

/// The outcome of the fields `If-Match` and `If-None-Match` of a request: `tag` is the etag of the
/// document, if it is stored, `exists` says whether the resource exists, and `reading` whether the
/// method is GET or HEAD.
///
/// # Errors
/// `AllocError` when out of memory.
pub fn outcome(
    alloc: Global,
    request: &Request,
    tag: Option<u64>,
    exists: bool,
    reading: bool,
) -> Result<Outcome, AllocError>
    ensures outcome_of_conditions { IfOk result
        (λ o. HasOutcome request.now.fields tag exists reading o) }
{
    let fields = request.fields.as_slice();
    let if_match = copy_values(alloc, fields, b"if-match")?;
    let if_none_match = copy_values(alloc, fields, b"if-none-match")?;
    outcome_by_lines(
        alloc,
        if_match.as_slice(),
        if_none_match.as_slice(),
        tag,
        exists,
        reading,
    )
}
