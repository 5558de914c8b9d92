//! PUT and DELETE of nodes (RFC 4825, sections 8.2 and 8.4).
ghost use Rattle.std.specs.Prelude.{◌≡◌, ◌≢◌, Err, IfOk, IfSome, MatchOption, Some, false};
ghost use Rattle.std.specs.Prelude.{option_map, true};
ghost use Rattle.doc_names.specs.Usages.{usage_of};
ghost use Rattle.doc_names.specs.declared.doc_id.DocId.{DocId as TheDocId};
ghost use Rattle.node_select.specs.declared.selector.End.TheVariants as ends;
ghost use Rattle.edit_rules.specs.Spots.{IsSpotOf};
ghost use Rattle.edit_rules.specs.declared.edit_refusal.EditRefusal.TheVariants as refusals;
ghost use Rattle.store_core.specs.ValidStates.{IsSoundDocument};
ghost use Rattle.xcap_machine.specs.Answers.{AppliesConditions, reply_only};
ghost use Rattle.xcap_machine.specs.NodeWrites.{DeletesNode, PutsFragment, PutsNode};
ghost use Rattle.xcap_machine.specs.NodeWrites.{IsWritableSelector};
ghost use Rattle.xcap_machine.specs.NodeWrites.{node_exists};
ghost use Rattle.xcap_machine.specs.Resources.{version_of};
ghost use Rattle.xcap_machine.specs.DocumentWrites.{missing_parent_answer};
ghost use Rattle.xcap_machine.specs.inner.AnswerCases.{DeletesNodeOfVersion, PutsNodeOfVersion};
ghost use Rattle.xcap_put.specs.Decisions.{DecidesAnswer};
ghost use Rattle.xcap_put.specs.inner.RequestPlans.{IsRemovalPlan, IsPlanFor, IsPlanFromResult};

use crate::Decision;
use crate::conflicts::no_parent_reply;
use crate::decisions::decide_plan;
use crate::fragment_puts::put_fragment;
use crate::plan::{Plan, PlannedChange};
use crate::refusal_replies::unplanned;
use doc_names::{Auid, DocId, Home, Usage};
use edit_plans::{EditRefusal, Spot, plan_delete, put_spot};
use http_wire::Request;
use node_select::Selector;
use reply_bodies::{has_node_at, texts_are_those_of_found_nodes};
use reply_text::Reply;
use request_checks::condition_reply;
use std::alloc::{AllocError, Global};
use store_core::Store;
use xcap_uri::{Root, ancestor_uri, home_uri};
use xml_tree::Element;

// The sound tree and the tag of a document of this usage, if it is stored.
fn version_of<'a>(store: &'a Store, doc: &DocId, usage: Usage) -> Option<(&'a Element, u64)>
    requires usage_of_doc { usage_of doc.now.auid ≡ Some usage }
    ensures exact { option_map (λ v. (v.0.now, v.1)) result ≡ version_of store.now.content doc.now }
    ensures stored_sound { IfSome result (λ v. IsSoundDocument usage v.0.now) }
{
    store.get(doc)
}

// ---- PUT

// Whether the node at an edit target is there already.
fn node_exists(alloc: Global, tree: &Element, selector: &Selector, spot: &Spot) -> bool
    requires valid_spot { IsSpotOf tree.now selector.now spot.now }
    ensures there_before { result ≡ node_exists tree.now selector.now }
{
    match spot {
        Spot::Over(_) => true,
        Spot::Under(_) => false,
        Spot::Beside => false,
        Spot::Value(path) => has_node_at(alloc, tree, path, &selector.end),
    }
}

// The plan of a PUT of a node with this edit target in a document with this tree and this tag.
fn plan_put_at(
    alloc: Global,
    usage: Usage,
    tree: &Element,
    tag: u64,
    selector: &Selector,
    spot: &Spot,
    request: &Request,
) -> Result<Plan, AllocError>
    requires is_sound { IsSoundDocument usage tree.now }
    requires writable { IsWritableSelector selector.now }
    requires valid_spot { IsSpotOf tree.now selector.now spot.now }
    ensures plans_put { IfOk result
        (λ plan. (id : TheDocId) → IsPlanFor usage tree.now id request.now.closes
        (λ c a. AppliesConditions request.now
        (record { tag = Some tag; exists = node_exists tree.now selector.now }) false a
        (PutsFragment c
        (record { id = id; usage = usage; selector = selector.now; request = request.now })
        tree.now spot.now a)) plan) }
{
    let exists = node_exists(alloc, tree, selector, spot);
    match condition_reply(alloc, request, Some(tag), exists, false)? {
        Some(reply) => Ok(Err(reply)),
        None => put_fragment(alloc, usage, tree, selector, spot, exists, request),
    }
}

// The plan of a PUT of a node of a document that is stored with this tree and this tag.
fn plan_put_in_document(
    alloc: Global,
    root: &Root,
    doc: &DocId,
    usage: Usage,
    held: (&Element, u64),
    selector: &Selector,
    request: &Request,
) -> Result<Plan, AllocError>
    requires is_sound { IsSoundDocument usage held.0.now }
    requires selects_node { selector.now.end ≡ ends.Namespaces → ⊥ }
    requires writable { IsWritableSelector selector.now }
    ensures plans_put { IfOk result
        (λ plan. IsPlanFor usage held.entry.0.now doc.now request.now.closes
        (λ c a. PutsNodeOfVersion (record { root = root.now; content = c })
        (record { id = doc.now; usage = usage; selector = selector.now; request = request.now })
        (held.entry.0.now, held.entry.1) a) plan) }
{
    let (tree, tag) = held;
    match put_spot(alloc, tree, selector) {
        Ok(spot) => plan_put_at(alloc, usage, tree, tag, selector, &spot, request),
        Err(_) => {
            let uri = ancestor_uri(alloc, root, doc, tree, selector)?;
            let reply = no_parent_reply(alloc, uri, request.closes)?;
            Ok(Err(reply))
        }
    }
}

/// Decides a PUT of a node, which isn't read-only, of a document of this usage: 201 where the node
/// is new and 200 where it replaces something, both with the document's new tag. Replies without a
/// change: 409 `no-parent` where the document isn't stored, with the home as ancestor, or where
/// the node has no parent, with the closest ancestor; 400 or 412 for the conditions; 415 for the
/// media type; 409 where the body is no such node, the address wouldn't select it afterwards, the
/// document wouldn't be one of the usage, or a service address in it is another document's; 507
/// beyond a limit.
///
/// # Errors
/// `AllocError` when out of memory.
pub fn put_node(
    alloc: Global,
    store: &mut Store,
    root: &Root,
    doc: DocId,
    usage: Usage,
    selector: &Selector,
    request: &Request,
) -> Result<Decision, AllocError>
    requires usage_of_doc { usage_of doc.auid ≡ Some usage }
    requires selects_node { selector.now.end ≡ ends.Namespaces → ⊥ }
    requires writable { IsWritableSelector selector.now }
    ensures decides_put { IfOk result
        (λ d. DecidesAnswer (PutsNode (record { root = root.now; content = store.old.content })
        (record { id = doc; usage = usage; selector = selector.now; request = request.now }))
        store.new d) }
    ensures contents_unchanged { store.new.content ≡ store.old.content }
{
    match version_of(store, &doc, usage) {
        Some(held) => {
            let plan = plan_put_in_document(alloc, root, &doc, usage, held, selector, request)?;
            decide_plan(alloc, store, doc, plan, request.closes)
        }
        None => {
            let reply = missing_parent_reply(alloc, root, doc.auid, &doc.home, request)?;
            Ok(Decision::Stays(reply))
        }
    }
}

/// The reply to a PUT deeper than the documents of a home, or in a document that isn't stored: 409
/// `no-parent`, with the home as ancestor.
///
/// # Errors
/// `AllocError` when out of memory.
pub fn missing_parent_reply(
    alloc: Global,
    root: &Root,
    auid: Auid,
    home: &Home,
    request: &Request,
) -> Result<Reply, AllocError>
    ensures reply_or_missing { IfOk result
        (λ r. missing_parent_answer root.now auid home.now request.now ≡ reply_only r) }
{
    let uri = home_uri(alloc, root, auid, home)?;
    no_parent_reply(alloc, uri, request.closes)
}

// ---- DELETE

// The plan of a DELETE that is refused for this reason; None where nothing is found.
fn removal_refusal(
    alloc: Global,
    why: EditRefusal,
    closes: bool,
) -> Result<Option<Plan>, AllocError>
    ensures reason_reply { IfOk result (λ plan. MatchOption plan (why ≡ refusals.NotFound)
        (λ p. (why ≢ refusals.NotFound) × IsPlanFromResult (Err why) true closes p)) }
{
    match why {
        EditRefusal::NotFound => Ok(None),
        why => {
            let reply = unplanned(alloc, why, closes)?;
            Ok(Some(Err(reply)))
        }
    }
}

// The plan of a DELETE of a node, before the conditions are tested; None where nothing is found.
fn plan_node_removal(
    alloc: Global,
    usage: Usage,
    tree: &Element,
    selector: &Selector,
    request: &Request,
) -> Result<Option<Plan>, AllocError>
    requires is_sound { IsSoundDocument usage tree.now }
    requires selects_node { selector.now.end ≡ ends.Namespaces → ⊥ }
    ensures plans_removal { IfOk result
        (λ plan. IsRemovalPlan usage tree.now selector.now request.now plan) }
{
    texts_are_those_of_found_nodes();
    match plan_delete(alloc, usage, tree, selector)? {
        Ok(change) => Ok(Some(Ok(PlannedChange {
            change,
            exists: true,
        }))),
        Err(why) => removal_refusal(alloc, why, request.closes),
    }
}

// The plan of a DELETE of a node of a document that is stored with this tree and this tag. The
// document is descended once: the plan shows whether the node is there.
fn plan_delete_in_document(
    alloc: Global,
    usage: Usage,
    held: (&Element, u64),
    selector: &Selector,
    request: &Request,
) -> Result<Plan, AllocError>
    requires is_sound { IsSoundDocument usage held.0.now }
    requires selects_node { selector.now.end ≡ ends.Namespaces → ⊥ }
    ensures plans_removal { IfOk result
        (λ plan. (id : TheDocId) → IsPlanFor usage held.entry.0.now id request.now.closes
        (λ c a. DeletesNodeOfVersion c
        (record { id = id; usage = usage; selector = selector.now; request = request.now })
        (held.entry.0.now, held.entry.1) a) plan) }
{
    let (tree, tag) = held;
    let Some(plan) = plan_node_removal(alloc, usage, tree, selector, request)? else {
        return Ok(Err(Reply::fixed(404, request.closes)));
    };
    match condition_reply(alloc, request, Some(tag), true, false) {
        Ok(None) => Ok(plan),
        Ok(Some(reply)) => {
            drop(plan);
            Ok(Err(reply))
        }
        Err(error) => {
            drop(plan);
            Err(error)
        }
    }
}

/// Decides a DELETE of a node, which isn't read-only, of a document of this usage: 200, with the
/// document's new tag. Replies without a change: 404 where the document isn't stored or nothing is
/// selected; 400 or 412 for the conditions; 409 where the address would still select something, or
/// the document wouldn't be one of the usage; 507 where the greatest number has been given.
///
/// # Errors
/// `AllocError` when out of memory.
pub fn delete_node(
    alloc: Global,
    store: &mut Store,
    doc: DocId,
    usage: Usage,
    selector: &Selector,
    request: &Request,
) -> Result<Decision, AllocError>
    requires usage_of_doc { usage_of doc.auid ≡ Some usage }
    requires selects_node { selector.now.end ≡ ends.Namespaces → ⊥ }
    ensures decides_removal { IfOk result
        (λ d. DecidesAnswer (DeletesNode store.old.content
        (record { id = doc; usage = usage; selector = selector.now; request = request.now }))
        store.new d) }
    ensures contents_unchanged { store.new.content ≡ store.old.content }
{
    match version_of(store, &doc, usage) {
        Some(held) => {
            let plan = plan_delete_in_document(alloc, usage, held, selector, request)?;
            decide_plan(alloc, store, doc, plan, request.closes)
        }
        None => Ok(Decision::Stays(Reply::fixed(404, request.closes))),
    }
}
