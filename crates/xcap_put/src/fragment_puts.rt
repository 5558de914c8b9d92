//! The body of a PUT of a node (RFC 4825, sections 8.2.3 and 8.2.4).
ghost use Rattle.std.specs.Prelude.{◌≡◌, ◌≤◌, Err, IfOk, IsSome};
ghost use Rattle.xml_tree.specs.TreeScopes.{scope_around, scope_at};
ghost use Rattle.xml_tree.specs.Tree.{at, height};
ghost use Rattle.reply_bodies.specs.declared.conflicts.ErrorBody.TheVariants as conflicts;
ghost use Rattle.doc_names.specs.declared.doc_id.DocId.{DocId as TheDocId};
ghost use Rattle.node_select.specs.declared.selector.End.TheVariants as ends;
ghost use Rattle.tree_text.specs.Faults.{IsTextResult};
ghost use Rattle.xml_names.specs.ReadErrors.{ResultSatisfies};
ghost use Rattle.edit_rules.specs.ElementPuts.{FitsWithinLevelsAt, IsProperAt};
ghost use Rattle.edit_rules.specs.Spots.{IsSpotOf};
ghost use Rattle.edit_rules.specs.declared.spot.Spot.TheVariants.{Value};
ghost use Rattle.store_core.specs.ValidStates.{IsSoundDocument};
ghost use Rattle.xcap_machine.specs.Answers.{error_reply};
ghost use Rattle.xcap_machine.specs.DocumentWrites.{text_conflict};
ghost use Rattle.xcap_machine.specs.NodeWrites.{IsWritableSelector, PutsAtEditTarget, PutsElement};
ghost use Rattle.xcap_machine.specs.NodeWrites.{PutsFragment};
ghost use Rattle.xcap_machine.specs.NodeWrites.{PutsValue, node_exists, max_height_at};
ghost use Rattle.xcap_machine.specs.NodeWrites.{edit_target_scope};
ghost use Rattle.xcap_machine.specs.NodeWrites.{value_conflict};
ghost use Rattle.xcap_put.specs.inner.RequestPlans.{IsPlanFor, SpotExists};

use crate::conflicts::conflict_reply;
use crate::plan::{Plan, plan_from_result};
use crate::request_bodies::text_conflict;
use doc_names::Usage;
use edit_plans::{Spot, plan_attr, plan_put};
use http_wire::Request;
use node_select::Selector;
use reply_bodies::{ErrorBody, node_media_type};
use reply_text::Reply;
use request_checks::has_media_type;
use std::alloc::{AllocError, Global};
use tree_text::{TextFault, ValueFault, read_att_value, read_fragment};
use xml_names::{MAX_LEVELS, ReadError};
use xml_tree::{Element, Path, Scope};

// ---- elements

// The declarations in scope at the element at a path.
fn scope_at<'a>(tree: &'a Element, path: &Path) -> Scope<'a>
    requires place_exists { IsSome (at path.now tree.now) }
    ensures exact { result ≡ scope_at path.now tree.now }
{
    match Scope::at(tree, path) {
        Some(scope) => scope,
        None => unreachable!(),
    }
}

// The declarations in scope around the element at a path.
fn scope_around<'a>(tree: &'a Element, path: &Path) -> Scope<'a>
    requires place_exists { IsSome (at path.now tree.now) }
    ensures exact { result ≡ scope_around path.now tree.now }
{
    match path.split_last() {
        None => Scope::empty(),
        Some((parent, _)) => scope_at(tree, &parent),
    }
}

// The declarations in scope around an element that is put at an edit target.
fn edit_target_scope<'a>(tree: &'a Element, spot: &Spot) -> Scope<'a>
    requires valid_spot { SpotExists tree.now spot.now }
    ensures exact { result ≡ edit_target_scope tree.now spot.now }
{
    match spot {
        Spot::Over(path) => scope_around(tree, path),
        Spot::Under(place) => scope_at(tree, place),
        Spot::Beside => Scope::empty(),
        Spot::Value(_) => Scope::empty(),
    }
}

// The greatest height of an element at an edit target.
fn max_height_at(spot: &Spot) -> usize
    ensures exact { result ≡ max_height_at spot.now }
{
    match spot {
        Spot::Over(path) => MAX_LEVELS.saturating_sub(path.numbers().len()),
        Spot::Under(place) => MAX_LEVELS.saturating_sub(place.numbers().len() + 1),
        Spot::Beside => MAX_LEVELS,
        Spot::Value(_) => 0,
    }
}

// Parses bytes as an element in the scope of its place, no higher than fits there.
fn read_element(
    alloc: Global,
    tree: &Element,
    spot: &Spot,
    bytes: &[u8],
) -> Result<Element, ReadError<TextFault>>
    requires height_bounded { height tree.now ≤ MAX_LEVELS }
    requires valid_spot { SpotExists tree.now spot.now }
    ensures grammar_answer { ResultSatisfies
        (IsTextResult (max_height_at spot.now) (edit_target_scope tree.now spot.now) bytes.now)
        result }
    ensures is_proper { IfOk result
        (λ e. IsProperAt tree.now spot.now e × FitsWithinLevelsAt spot.now e) }
{
    let scope = edit_target_scope(tree, spot);
    read_fragment(alloc, bytes, &scope, max_height_at(spot))
}

// The reply to a body that is no element.
fn element_refusal_plan(alloc: Global, fault: TextFault, closes: bool) -> Result<Plan, AllocError>
    ensures fault_reply { IfOk result
        (λ plan. plan ≡ Err (error_reply (text_conflict conflicts.NotXmlFrag fault) closes)) }
{
    let body = text_conflict(ErrorBody::NotXmlFrag, fault);
    let reply = conflict_reply(alloc, &body, closes)?;
    Ok(Err(reply))
}

// The plan of a PUT of an element, where the media type is that of elements.
fn put_element(
    alloc: Global,
    usage: Usage,
    tree: &Element,
    selector: &Selector,
    spot: &Spot,
    exists: bool,
    request: &Request,
) -> Result<Plan, AllocError>
    requires is_sound { IsSoundDocument usage tree.now }
    requires valid_spot { IsSpotOf tree.now selector.now spot.now }
    requires selector_end { selector.now.end ≡ ends.Element }
    requires exists_iff { exists ≡ node_exists tree.now selector.now }
    ensures plans_put { IfOk result
        (λ plan. (id : TheDocId) → IsPlanFor usage tree.now id request.now.closes
        (λ c a. PutsElement c
        (record { id = id; usage = usage; selector = selector.now; request = request.now })
        tree.now spot.now a) plan) }
{
    match read_element(alloc, tree, spot, request.body.as_slice()) {
        Ok(element) => {
            let planned = plan_put(alloc, usage, tree, selector, spot, element);
            plan_from_result(alloc, planned, exists, request.closes)
        }
        Err(ReadError::Fault(fault)) => element_refusal_plan(alloc, fault, request.closes),
        Err(ReadError::NoMemory) => Err(AllocError),
    }
}

// ---- attributes

// The error for a body that is no attribute value.
fn value_conflict(fault: ValueFault) -> ErrorBody
    ensures fault_reply { result ≡ value_conflict fault }
{
    match fault {
        ValueFault::NotUtf8 => ErrorBody::NotUtf8,
        ValueFault::NotValue(_) => ErrorBody::NotXmlAttValue,
    }
}

// The reply to a body that is no attribute value.
fn value_refusal_plan(alloc: Global, fault: ValueFault, closes: bool) -> Result<Plan, AllocError>
    ensures fault_reply { IfOk result
        (λ plan. plan ≡ Err (error_reply (value_conflict fault) closes)) }
{
    let body = value_conflict(fault);
    let reply = conflict_reply(alloc, &body, closes)?;
    Ok(Err(reply))
}

// The plan of a PUT of an attribute of the element at a path, where the media type is that of
// attributes.
fn put_value(
    alloc: Global,
    usage: Usage,
    tree: &Element,
    selector: &Selector,
    path: &Path,
    exists: bool,
    request: &Request,
) -> Result<Plan, AllocError>
    requires is_sound { IsSoundDocument usage tree.now }
    requires writable { IsWritableSelector selector.now }
    requires valid_spot { IsSpotOf tree.now selector.now (Value path.now) }
    requires exists_iff { exists ≡ node_exists tree.now selector.now }
    ensures plans_put { IfOk result
        (λ plan. (id : TheDocId) → IsPlanFor usage tree.now id request.now.closes
        (λ c a. PutsValue c
        (record { id = id; usage = usage; selector = selector.now; request = request.now })
        tree.now path.now a) plan) }
{
    match read_att_value(alloc, request.body.as_slice()) {
        Ok(value) => {
            let planned = plan_attr(alloc, usage, tree, selector, path, value)?;
            plan_from_result(alloc, planned, exists, request.closes)
        }
        Err(ReadError::Fault(fault)) => value_refusal_plan(alloc, fault, request.closes),
        Err(ReadError::NoMemory) => Err(AllocError),
    }
}

// ---- elements and attributes

// The plan of a PUT of a node, where the media type is that of nodes of its kind.
fn put_node_body(
    alloc: Global,
    usage: Usage,
    tree: &Element,
    selector: &Selector,
    spot: &Spot,
    exists: bool,
    request: &Request,
) -> Result<Plan, AllocError>
    requires is_sound { IsSoundDocument usage tree.now }
    requires writable { IsWritableSelector selector.now }
    requires valid_spot { IsSpotOf tree.now selector.now spot.now }
    requires exists_iff { exists ≡ node_exists tree.now selector.now }
    ensures plans_put { IfOk result
        (λ plan. (id : TheDocId) → IsPlanFor usage tree.now id request.now.closes
        (λ c a. PutsAtEditTarget c
        (record { id = id; usage = usage; selector = selector.now; request = request.now })
        tree.now spot.now a) plan) }
{
    match spot {
        Spot::Value(path) => put_value(alloc, usage, tree, selector, path, exists, request),
        Spot::Over(_) => put_element(alloc, usage, tree, selector, spot, exists, request),
        Spot::Under(_) => put_element(alloc, usage, tree, selector, spot, exists, request),
        Spot::Beside => put_element(alloc, usage, tree, selector, spot, exists, request),
    }
}

/// The plan of a PUT of a node at an edit target, after the conditions passed: 415 where the body
/// doesn't have the media type of such nodes, 409 where it can't be parsed as one or the document
/// would not be one of its usage.
///
/// # Errors
/// `AllocError` when out of memory.
pub(crate) fn put_fragment(
    alloc: Global,
    usage: Usage,
    tree: &Element,
    selector: &Selector,
    spot: &Spot,
    exists: bool,
    request: &Request,
) -> Result<Plan, AllocError>
    requires is_sound { IsSoundDocument usage tree.now }
    requires writable { IsWritableSelector selector.now }
    requires valid_spot { IsSpotOf tree.now selector.now spot.now }
    requires exists_iff { exists ≡ node_exists tree.now selector.now }
    ensures plans_put { IfOk result
        (λ plan. (id : TheDocId) → IsPlanFor usage tree.now id request.now.closes
        (λ c a. PutsFragment c
        (record { id = id; usage = usage; selector = selector.now; request = request.now })
        tree.now spot.now a) plan) }
{
    if !has_media_type(request, node_media_type(&selector.end)) {
        return Ok(Err(Reply::fixed(415, request.closes)));
    }
    put_node_body(alloc, usage, tree, selector, spot, exists, request)
}
