//! The fields `If-Match` and `If-None-Match` (RFC 9110, sections 13.1.1 and 13.1.2).
ghost use Rattle.std.specs.Prelude.{◌≡◌, ◌++◌, [], Some, None, IfOk, IsErrOf, flat_map, codes};
ghost use Rattle.request_checks.specs.Fields.{IsConditionsReading, HaveFieldValues};
ghost use Rattle.request_checks.specs.readers.Fields.{text_value, field_value, conditions_of};
ghost use Rattle.request_checks.specs.inner.FieldViews.{field_value_view};

use crate::entity_tags::read_tags;
use crate::{ConditionFault, EntityTag};
use std::alloc::{AllocError, Global};
use std::marker::Model;
use xcap_io::Bytes;

// What one field says.
#[derive(Drop)]
pub(crate) enum ConditionField {
    Missing,
    Star,
    Tags(Vec<EntityTag>),
}

/// What the two condition fields of a request say.
#[derive(Drop)]
pub struct Conditions {
    pub(crate) if_match: ConditionField,
    pub(crate) if_none_match: ConditionField,
}

impl Model for Conditions {
    ghost use Rattle.request_checks.specs.Fields.{Preconditions};

    ghost Value = { Preconditions };

    ghost use Rattle.request_checks.specs.inner.FieldViews.{field_value_view};

    ghost view = { λ c. record {
      if_match = field_value_view c.if_match;
      if_none_match = field_value_view c.if_none_match;
    } };
}

// The lines of a field as one text, joined by commas (RFC 9110, section 5.2).
fn join_lines(alloc: Global, first: &Bytes, others: &[Bytes]) -> Result<Bytes, AllocError>
    ensures ok { IfOk result
        (λ text. text ≡ first.now ++ flat_map (λ line. codes "," ++ line) others.now) }
{
    let mut text = first.copy(alloc)?;
    'lines: for line in others {
        text.push(b',')?;
        text.extend(line.as_slice())?;
    }
    Ok(text)
}

fn read_field_text(alloc: Global, text: &[u8]) -> Result<ConditionField, ConditionFault>
    ensures reads_rule { IfOk result
        (λ field. text_value text.now ≡ Some (field_value_view field)) }
    ensures refused_no_reading { IsErrOf result ConditionFault.BadCondition
        → text_value text.now ≡ None }
{
    if text == b"*".as_slice() {
        return Ok(ConditionField::Star);
    }
    let tags = read_tags(alloc, text)?;
    if tags.is_empty() {
        return Err(ConditionFault::BadCondition);
    }
    Ok(ConditionField::Tags(tags))
}

fn read_field(alloc: Global, lines: &[Bytes]) -> Result<ConditionField, ConditionFault>
    ensures reads_rule { IfOk result
        (λ field. field_value lines.now ≡ Some (field_value_view field)) }
    ensures refused_no_reading { IsErrOf result ConditionFault.BadCondition
        → field_value lines.now ≡ None }
{
    match lines {
        [] => Ok(ConditionField::Missing),
        [first, others @ ..] => {
            let text = join_lines(alloc, first, others)?;
            read_field_text(alloc, text.as_slice())
        }
    }
}

/// Reads the lines of `If-Match` and of `If-None-Match`, each without the blanks at its ends, in
/// the order of the request.
///
/// # Errors
/// `BadCondition` exactly where one of the two fields is present and is neither `*` nor a list of
/// at least one entity tag; `NoMemory` when out of memory.
pub fn read_conditions(
    alloc: Global,
    if_match: &[Bytes],
    if_none_match: &[Bytes],
) -> Result<Conditions, ConditionFault>
    ensures grammar_reading { IfOk result (λ c. HaveFieldValues if_match.now if_none_match.now c) }
    ensures refused_unsaid { IsErrOf result ConditionFault.BadCondition
        → IsConditionsReading if_match.now if_none_match.now None }
{
    read_both_fields(alloc, if_match, if_none_match)
}

// Reads both fields.
fn read_both_fields(
    alloc: Global,
    if_match: &[Bytes],
    if_none_match: &[Bytes],
) -> Result<Conditions, ConditionFault>
    ensures computed_reading { IfOk result
        (λ c. conditions_of if_match.now if_none_match.now ≡ Some c) }
    ensures refused_no_reading { IsErrOf result ConditionFault.BadCondition
        → conditions_of if_match.now if_none_match.now ≡ None }
{
    let if_match = read_field(alloc, if_match)?;
    let if_none_match = read_field(alloc, if_none_match)?;
    Ok(Conditions {
        if_match,
        if_none_match,
    })
}
