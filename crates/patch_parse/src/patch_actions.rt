//! The patch action of an operation, by its name and its attributes (RFC 5261, sections 4.3 to
//! 4.5).
ghost use Rattle.std.specs.Prelude.{◌≡◌, [], IfOk, option_map};
ghost use Rattle.std.specs.Option.{option_copied};
ghost use Rattle.patch_rules.specs.PatchOperations.{add_action, remove_action, name_of_parts};
ghost use Rattle.patch_rules.specs.PatchOperations.{reject_xmlns};
ghost use Rattle.patch_rules.specs.PatchOperations.{parse_position, parse_qname, parse_ws};
ghost use Rattle.patch_rules.specs.PatchOperations.{action_by_name, parse_attr_name, prefixed_name};
ghost use Rattle.patch_rules.specs.PatchOperations.{parse_operation_name};
ghost use Rattle.patch_rules.specs.PatchOperations.{operation_action};
ghost use Rattle.patch_parse.specs.Views.{position_view, action_view};
ghost use Rattle.patch_parse.specs.inner.DiffNames.{operation_name_view};

use crate::diff_names::plain_value;
use std::alloc::{AllocError, Global};
use xml_names::{Attr, LocalName, Name, Prefix, Text, is_name};
use xml_tokens::{chars_of_text, name_part};

/// Where an addition puts its content, relative to the element that is selected.
#[derive(Clone, Copy, Drop)]
pub enum Position {
    /// In the element, after its other nodes.
    Append,
    /// In the element, before its other nodes.
    Prepend,
    /// Before the element.
    Before,
    /// After the element.
    After,
}

// The name of an operation.
#[derive(Clone, Copy, Drop)]
pub enum OperationName {
    Add,
    Exchange,
    Cut,
}

/// What an operation asks for.
#[derive(Drop)]
pub enum PatchAction {
    /// The content is put at this position.
    Put(Position),
    /// An attribute of this name is added.
    NewAttr(Name),
    /// What is at the location is replaced.
    Replace,
    /// What is at the location is removed, with the white space before it and after it as asked.
    Remove(bool, bool),
}

// ---- the values of attributes

#[tactic(auto, using(crate::proofs::Words::words))]
fn read_operation_name(local: &LocalName) -> Option<OperationName>
    ensures exact { option_map operation_name_view result ≡ parse_operation_name local.now }
{
    if local.is("add") {
        return Some(OperationName::Add);
    }
    if local.is("replace") {
        return Some(OperationName::Exchange);
    }
    if local.is("remove") {
        return Some(OperationName::Cut);
    }
    None
}

#[tactic(auto, using(crate::proofs::Words::words))]
fn read_position(text: &Text) -> Option<Position>
    ensures exact { option_map position_view result ≡ parse_position text.now }
{
    if text.is("prepend") {
        return Some(Position::Prepend);
    }
    if text.is("before") {
        return Some(Position::Before);
    }
    if text.is("after") {
        return Some(Position::After);
    }
    None
}

#[tactic(auto, using(crate::proofs::Words::words))]
fn read_ws(text: &Text) -> Option<(bool, bool)>
    ensures exact { result ≡ parse_ws text.now }
{
    if text.is("before") {
        return Some((true, false));
    }
    if text.is("after") {
        return Some((false, true));
    }
    if text.is("both") {
        return Some((true, true));
    }
    None
}

// ---- names of new attributes

// A name of two parts, where both are NCNames.
fn prefixed_name(alloc: Global, prefix: &[char], local: &[char]) -> Result<Option<Name>, AllocError>
    ensures ok { IfOk result (λ name. name ≡ prefixed_name prefix.now local.now) }
{
    let prefix: Prefix = name_part(alloc, prefix)?;
    let local: LocalName = name_part(alloc, local)?;
    if is_name(prefix.as_str()) && is_name(local.as_str()) {
        return Ok(Some(Name { prefix, local }));
    }
    Ok(None)
}

// A name without prefix, where it is an NCName.
fn unprefixed_name(alloc: Global, local: &[char]) -> Result<Option<Name>, AllocError>
    ensures ok { IfOk result (λ name. name ≡ name_of_parts local.now []) }
{
    let local: LocalName = name_part(alloc, local)?;
    if !is_name(local.as_str()) {
        return Ok(None);
    }
    let prefix = Prefix::empty();
    Ok(Some(Name { prefix, local }))
}

// A QName, cut at its first colon.
#[tactic(auto, using(patch_rules::proofs::NameCuts::cut_from_front))]
fn parse_qname(alloc: Global, text: &[char]) -> Result<Option<Name>, AllocError>
    ensures ok { IfOk result (λ name. name ≡ parse_qname text.now) }
{
    for (i, &c) in text.iter().enumerate() {
        if c == ':' {
            return prefixed_name(alloc, &text[..i], &text[i + 1..]);
        }
    }
    unprefixed_name(alloc, text)
}

// A name that isn't `xmlns`.
#[tactic(auto, using(crate::proofs::Words::words))]
fn reject_xmlns(name: Name) -> Option<Name>
    ensures exact { result ≡ reject_xmlns name }
{
    if name.has_no_prefix() && name.local.is("xmlns") {
        return None;
    }
    Some(name)
}

// A QName after `@`, in characters.
fn parse_attr_name_chars(alloc: Global, text: &[char]) -> Result<Option<Name>, AllocError>
    ensures ok { IfOk result (λ name. name ≡ parse_attr_name text.now) }
{
    match text {
        ['@', rest @ ..] => match parse_qname(alloc, rest)? {
            None => Ok(None),
            Some(name) => Ok(reject_xmlns(name)),
        },
        _ => Ok(None),
    }
}

// The name of a new attribute.
fn parse_attr_name(alloc: Global, text: &Text) -> Result<Option<Name>, AllocError>
    ensures ok { IfOk result (λ name. name ≡ parse_attr_name text.now) }
{
    let all = chars_of_text(alloc, text.as_str())?;
    parse_attr_name_chars(alloc, &all)
}

// ---- patch actions

// An addition of content, or of an attribute.
fn add_action(
    alloc: Global,
    pos: Option<&Text>,
    name: Option<&Text>,
) -> Result<Option<PatchAction>, AllocError>
    ensures ok { IfOk result
        (λ task. option_map action_view task
        ≡ add_action (option_copied pos.entry) (option_copied name.entry)) }
{
    match (pos, name) {
        (None, None) => Ok(Some(PatchAction::Put(Position::Append))),
        (Some(pos), None) => match read_position(pos) {
            None => Ok(None),
            Some(position) => Ok(Some(PatchAction::Put(position))),
        },
        (None, Some(name)) => match parse_attr_name(alloc, name)? {
            None => Ok(None),
            Some(name) => Ok(Some(PatchAction::NewAttr(name))),
        },
        (Some(_), Some(_)) => Ok(None),
    }
}

// A removal.
fn remove_action(ws: Option<&Text>) -> Option<PatchAction>
    ensures exact { option_map action_view result ≡ remove_action (option_copied ws.entry) }
{
    match ws {
        None => Some(PatchAction::Remove(false, false)),
        Some(ws) => match read_ws(ws) {
            None => None,
            Some((before, after)) => Some(PatchAction::Remove(before, after)),
        },
    }
}

// The action of an operation's name with the attributes `pos`, `type` and `ws`.
fn action_by_name(
    alloc: Global,
    word: OperationName,
    pos: Option<&Text>,
    name: Option<&Text>,
    ws: Option<&Text>,
) -> Result<Option<PatchAction>, AllocError>
    ensures ok { IfOk result
        (λ task. option_map action_view task
        ≡ action_by_name (operation_name_view word) (option_copied pos.entry)
        (option_copied name.entry)
        (option_copied ws.entry)) }
{
    match word {
        OperationName::Add => {
            if ws.is_some() {
                return Ok(None);
            }
            add_action(alloc, pos, name)
        }
        OperationName::Exchange => {
            if pos.is_some() || name.is_some() || ws.is_some() {
                return Ok(None);
            }
            Ok(Some(PatchAction::Replace))
        }
        OperationName::Cut => {
            if pos.is_some() || name.is_some() {
                return Ok(None);
            }
            Ok(remove_action(ws))
        }
    }
}

/// The action of an operation with this name and these attributes (RFC 5261, sections 4.3 to 4.5);
/// none where they are no directive.
///
/// # Errors
/// `AllocError` when out of memory.
#[tactic(auto, using(crate::proofs::Words::words))]
pub fn read_patch_action(
    alloc: Global,
    name: &Name,
    attrs: &[Attr],
) -> Result<Option<PatchAction>, AllocError>
    ensures ok { IfOk result
        (λ task. option_map action_view task ≡ operation_action name.now attrs.now) }
{
    let Some(word) = read_operation_name(&name.local) else {
        return Ok(None);
    };
    let pos = plain_value(attrs, "pos");
    let name = plain_value(attrs, "type");
    let ws = plain_value(attrs, "ws");
    action_by_name(alloc, word, pos, name, ws)
}
