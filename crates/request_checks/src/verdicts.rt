//! Whether conditions hold (RFC 9110, section 13.2.2).
ghost use Rattle.std.specs.Prelude.{◌≡◌, decimal};
ghost use Rattle.std.specs.List.{list_any};
ghost use Rattle.std.specs.Str.{bytes_eq};
ghost use Rattle.request_checks.specs.inner.FieldViews.{field_value_view};
ghost use Rattle.request_checks.specs.Verdicts.{matches_etag_weakly, matches_etag_strongly};
ghost use Rattle.request_checks.specs.Verdicts.{if_match_holds};
ghost use Rattle.request_checks.specs.Verdicts.{if_none_match_holds, precondition_verdict};

use crate::condition_fields::ConditionField;
use crate::{Conditions, EntityTag};
use itoa::Buffer;

/// The verdict on a request's conditions.
#[derive(Clone, Copy, Drop, PartialEq, Eq)]
pub enum Verdict {
    /// They hold.
    Go,
    /// The request reads, and its sender already has what it would get (304).
    Same,
    /// They don't hold (412).
    Failed,
}

fn is_decimal_of(opaque: &[u8], number: u64) -> bool
    ensures exact { result ≡ bytes_eq opaque.now (decimal number) }
{
    let mut buffer = Buffer::new();
    opaque == buffer.format(number).as_bytes()
}

#[tactic(auto, unfolding(crate::specs::Verdicts::matches_etag_weakly))]
fn matches_etag_weakly(tag: &EntityTag, own: Option<u64>) -> bool
    ensures exact { result ≡ matches_etag_weakly own tag.now }
{
    match own {
        Some(number) => is_decimal_of(tag.opaque.as_slice(), number),
        None => false,
    }
}

#[tactic(auto, unfolding(crate::specs::Verdicts::matches_etag_strongly))]
fn matches_etag_strongly(tag: &EntityTag, own: Option<u64>) -> bool
    ensures exact { result ≡ matches_etag_strongly own tag.now }
{
    !tag.weak && matches_etag_weakly(tag, own)
}

fn any_matches_strongly(tags: &[EntityTag], own: Option<u64>) -> bool
    ensures exact { result ≡ list_any (matches_etag_strongly own) tags.now }
{
    tags.iter().any(|tag| matches_etag_strongly(tag, own))
}

fn any_matches_weakly(tags: &[EntityTag], own: Option<u64>) -> bool
    ensures exact { result ≡ list_any (matches_etag_weakly own) tags.now }
{
    tags.iter().any(|tag| matches_etag_weakly(tag, own))
}

fn if_match_holds(field: &ConditionField, own: Option<u64>, exists: bool) -> bool
    ensures exact { result ≡ if_match_holds own exists (field_value_view field.now) }
{
    match field {
        ConditionField::Missing => true,
        ConditionField::Star => exists,
        ConditionField::Tags(tags) => any_matches_strongly(tags, own),
    }
}

fn if_none_match_holds(field: &ConditionField, own: Option<u64>, exists: bool) -> bool
    ensures exact { result ≡ if_none_match_holds own exists (field_value_view field.now) }
{
    match field {
        ConditionField::Missing => true,
        ConditionField::Star => !exists,
        ConditionField::Tags(tags) => !any_matches_weakly(tags, own),
    }
}

/// The verdict of the conditions on a resource: `tag` is the etag of its document, if it is
/// stored, `exists` says whether the resource exists, and `reading` whether the method is GET or
/// HEAD. Does not allocate.
pub fn condition(conditions: &Conditions, tag: Option<u64>, exists: bool, reading: bool) -> Verdict
    ensures exact { result ≡ precondition_verdict conditions.now tag exists reading }
{
    if !if_match_holds(&conditions.if_match, tag, exists) {
        return Verdict::Failed;
    }
    if if_none_match_holds(&conditions.if_none_match, tag, exists) {
        return Verdict::Go;
    }
    if reading {
        Verdict::Same
    } else {
        Verdict::Failed
    }
}
