//! The prefix of a diff document: `d`, or the first of `d1`, `d2` and so on that nothing in its
//! operations declares.
ghost use Rattle.std.specs.Prelude.{◌≡◌, ℕ, List, ◌++◌, IfOk, OnOk, flat_map, length};
ghost use Rattle.std.specs.Set.{is_member};
ghost use Rattle.std.specs.Str.{bytes_eq};
ghost use Rattle.patch_rules.specs.Notices.{candidate_prefix, first_free_candidate, prefix_for};
ghost use Rattle.patch_rules.specs.inner.DeclaredPrefixes.{declared_prefixes, content_prefixes};
ghost use Rattle.patch_write.specs.inner.DeclaredPrefixes.{GainsPrefixes, HasExactlyPrefixes};
ghost use Rattle.patch_write.specs.inner.DeclaredPrefixes.{node_prefixes, inserted_prefixes};
ghost use Rattle.patch_write.specs.inner.DeclaredPrefixes.{record_prefixes};

use edit_ops::{Change, EditNote, Notes};
use std::alloc::{AllocError, Global};
use std::collections::BTreeSet;
use xml_names::{Decl, Prefix};
use xml_tree::{Element, Node};

// ---- declared prefixes

// Adds the prefixes of declarations.
fn add_decls(alloc: Global, seen: &mut BTreeSet<Prefix>, decls: &[Decl]) -> Result<(), AllocError>
    ensures gains_prefixes { OnOk result
        (GainsPrefixes (declared_prefixes decls.now) seen.old seen.new) }
{
    for decl in decls {
        let _is_new = seen.insert(decl.prefix.copy(alloc)?)?;
    }
    Ok(())
}

// Adds the prefixes that an element and all elements in it declare.
#[cycle(declared)]
fn add_element(
    alloc: Global,
    seen: &mut BTreeSet<Prefix>,
    element: &Element,
) -> Result<(), AllocError>
    ensures gains_prefixes { OnOk result
        (GainsPrefixes
        (declared_prefixes element.now.decls ++ content_prefixes element.now.content) seen.old
        seen.new) }
{
    add_decls(alloc, seen, element.decls())?;
    let nodes = element.nodes();
    for node in nodes {
        add_node(alloc, seen, node)?;
    }
    Ok(())
}

// Adds the prefixes that a node declares.
#[cycle(declared)]
fn add_node(alloc: Global, seen: &mut BTreeSet<Prefix>, node: &Node) -> Result<(), AllocError>
    ensures gains_prefixes { OnOk result
        (GainsPrefixes (node_prefixes node.now) seen.old seen.new) }
{
    match node {
        Node::Elem(element) => add_element(alloc, seen, element),
        Node::Chars(_) => Ok(()),
        Node::Comment(_) => Ok(()),
    }
}

// Adds the prefixes that the inserted element of a change declares.
fn add_change(alloc: Global, seen: &mut BTreeSet<Prefix>, change: &Change) -> Result<(), AllocError>
    ensures gains_prefixes { OnOk result
        (GainsPrefixes (inserted_prefixes change.now) seen.old seen.new) }
{
    match change {
        Change::CreateDocument { .. } => Ok(()),
        Change::Insert { element, .. } => add_element(alloc, seen, element),
        Change::Replace { element, .. } => add_element(alloc, seen, element),
        Change::Remove { .. } => Ok(()),
        Change::SetAttr { .. } => Ok(()),
        Change::DropAttr { .. } => Ok(()),
        Change::RemoveDocument => Ok(()),
    }
}

// Adds the prefixes that the operations of change records declare.
fn add_notes(
    alloc: Global,
    seen: &mut BTreeSet<Prefix>,
    notes: &[EditNote],
) -> Result<(), AllocError>
    ensures gains_prefixes { OnOk result
        (GainsPrefixes (flat_map record_prefixes notes.now) seen.old seen.new) }
{
    for note in notes {
        add_decls(alloc, seen, note.bindings())?;
        add_change(alloc, seen, note.change())?;
    }
    Ok(())
}

// ---- free prefixes

// `d`, or `d` and a number from 1 on.
#[tactic(auto, using(crate::proofs::Words::words))]
fn candidate_prefix(alloc: Global, number: u64) -> Result<Prefix, AllocError>
    ensures ok { IfOk result (λ prefix. prefix ≡ candidate_prefix number) }
{
    if number == 0 {
        return Prefix::from(alloc, "d");
    }
    let numbered = format!(in alloc; "d{}", number)?;
    Prefix::from(alloc, &numbered)
}

// The first candidate that isn't among these. More prefixes than `u64` has numbers don't fit into
// memory.
fn first_free_candidate(alloc: Global, seen: &BTreeSet<Prefix>) -> Result<Prefix, AllocError>
    ensures first_unused { (ps : List (List ℕ)) → HasExactlyPrefixes ps seen.now
        → IfOk result (λ prefix. prefix
        ≡ candidate_prefix (first_free_candidate (is_member bytes_eq ps) (length ps) 0)) }
{
    for number in 0..u64::MAX {
        let prefix = candidate_prefix(alloc, number)?;
        if !seen.contains(&prefix) {
            return Ok(prefix);
        }
    }
    Err(AllocError)
}

// The prefix of a diff document with the operations of these change records.
pub(crate) fn prefix_for(alloc: Global, notes: &Notes<'_>) -> Result<Prefix, AllocError>
    ensures records_prefix { IfOk result
        (λ prefix. prefix ≡ prefix_for notes.now) }
{
    let (older, newer) = notes.pieces();
    let mut seen = BTreeSet::new(alloc);
    add_notes(alloc, &mut seen, older)?;
    add_notes(alloc, &mut seen, newer)?;
    first_free_candidate(alloc, &seen)
}
