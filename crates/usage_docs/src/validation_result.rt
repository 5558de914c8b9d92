//! One walk over a tree, which finds whether it is valid, whether its references have their form,
//! and its first clash of keys (RFC 4826, sections 3.2, 3.4.5, 4.2 and 4.4.5).
ghost use Rattle.std.specs.Prelude.{◌≡◌, ◌≤◌, ◌<◌, ◌+◌, ◌^◌, ◌↔◌, Option, None, true, suc, length};
ghost use Rattle.std.specs.Prelude.{IsTrue, if◌then◌else◌};
ghost use Rattle.std.specs.Option.{ForSome};
ghost use Rattle.xml_tree.specs.Tree.{Tree, content_height, height, child_elements_of};
ghost use Rattle.xml_tree.specs.Nodes.{node_height};
ghost use Rattle.xml_tree.specs.declared.path.TheConstants.{PATH_LIMIT};
ghost use Rattle.xml_tree.specs.declared.tree.Node.TheVariants.{Elem};
ghost use Rattle.usage_docs.specs.declared.key_repeats.Clash.{Clash};
ghost use Rattle.usage_docs.specs.declared.schema_table.ElementKind.{ElementKind};
ghost use Rattle.usage_docs.specs.UniqueKeys.{RepeatsKeyAt};
ghost use Rattle.usage_docs.specs.ReferenceForms.{AllReferencesFormed, IsFormedNode};
ghost use Rattle.usage_docs.specs.SchemaTable.{Scope};
ghost use Rattle.usage_docs.specs.Validity.{IsValidOfKind};
ghost use Rattle.usage_docs.specs.readers.KeyRepeats.{EntersKey, HoldsKeys, IsFirstRepeat};
ghost use Rattle.usage_docs.specs.readers.KeyRepeats.{sibling_key_by_attrs};
ghost use Rattle.usage_docs.specs.readers.SiblingElements.{count_with_node};
ghost use Rattle.usage_docs.specs.readers.ContentWalks.{IsContentOfKind, IsNodeValid};
ghost use Rattle.usage_docs.specs.readers.ContentWalks.{part_after_node};
ghost use Rattle.usage_docs.specs.readers.FirstFaults.{IsFormedOfKind, IsFirstClashAfter};
ghost use Rattle.usage_docs.specs.readers.FirstFaults.{IsFirstClashSoFar};
ghost use Rattle.usage_docs.specs.readers.FirstFaults.{FindsFirstClash, AddsKey, RepeatsKeyIfKnown};
ghost use Rattle.usage_docs.specs.readers.FirstFaults.{clash_scan};

use crate::attributes::are_attrs_allowed;
use crate::child_scan::scan_for_repeat;
use crate::content_parts::{END, Placed, find_placement, may_follow};
use crate::key_repeats::{Clash, KeyRepeat, KeyedChild, enter_key, first_repeat};
use crate::path_trail::Trail;
use crate::reference_forms::are_references_formed;
use crate::schema_table::ElementKind;
use crate::validity::is_text_allowed;
use std::alloc::Global;
use xml_names::{Attr, index_decls};
use xml_tree::{Element, LinkedScope, Node};

/// The result of a walk over a tree.
#[derive(Drop)]
pub(crate) struct ValidationResult {
    /// Whether the tree is valid.
    pub valid: bool,
    /// Whether all references have their form.
    pub formed: bool,
    /// The first element whose key repeats a sibling's key.
    pub clash: Option<Clash>,
}

impl ValidationResult {
    /// No fault.
    pub(crate) fn no_fault() -> ValidationResult
        ensures starts_valid { result.valid ≡ true }
        ensures starts_formed { result.formed ≡ true }
        ensures starts_without_clash { result.clash ≡ None }
    {
        ValidationResult {
            valid: true,
            formed: true,
            clash: None,
        }
    }
}

// The children of an element that the walk has passed.
#[derive(Drop)]
struct ChildScan<'a> {
    // The number of these children.
    count: usize,
    // The part of the last of them; 0 before the first.
    part: u8,
    // How many children come before the first with a clash in it.
    clear: usize,
    // Their keys, and whether there was memory for all of them.
    keys: Vec<KeyedChild<'a>>,
    holds_all: bool,
}

impl<'a> ChildScan<'a> {
    // Adds a child with these attributes. It is clear unless a clash was found before it or in
    // it.
    fn add(&mut self, child: Placed, attrs: &'a [Attr], clashes: bool)
        requires clear_bounded { self.old.clear ≤ self.old.count }
        requires count_bounded { self.old.count < 2 ^ 63 }
        ensures same_part { self.new.part ≡ child.part }
        ensures counts_child { self.new.count ≡ suc self.old.count }
        ensures counts_clear { self.new.clear
            ≡ (if clashes then self.old.clear else suc self.old.clear) }
        ensures clear_at_most { self.new.clear ≤ self.new.count }
        ensures enters_key { self.new.holds_all ≡ true → (self.old.holds_all ≡ true)
            × EntersKey (sibling_key_by_attrs child.kind attrs.now) self.old.count
            self.old.keys.items
            self.new.keys.items }
    {
        self.holds_all = self.holds_all
            && enter_key(&mut self.keys, child.kind, attrs, self.count).is_ok();
        self.part = child.part;
        self.count += 1;
        self.clear += usize::from(!clashes);
    }
}

// The first child that has the kind and the key of an earlier one: by the keys of all children,
// or by a scan where there was no memory for them.
fn repeat_among(
    alloc: Global,
    row: ElementKind,
    scope: &LinkedScope<'_>,
    element: &Element,
    passed: ChildScan<'_>,
) -> Option<KeyRepeat>
    ensures is_first_repeat { (passed.entry.holds_all ≡ true
        → HoldsKeys row scope.now (child_elements_of element.now)
        (length (child_elements_of element.now)) passed.entry.keys.items)
        → IsFirstRepeat row scope.now (child_elements_of element.now) result }
{
    if passed.holds_all {
        return first_repeat(passed.keys);
    }
    scan_for_repeat(alloc, row, scope, element)
}

// Records the first child that has the kind and the key of an earlier one, if no clash comes
// before it.
fn note_repeat(
    repeat: Option<KeyRepeat>,
    clear: usize,
    trail: &Trail<'_>,
    found: &mut ValidationResult,
)
    ensures others_stay { (found.new.valid ≡ found.old.valid)
        × (found.new.formed ≡ found.old.formed) }
    ensures is_first_repeat { (row : ElementKind) (c : Scope) (e : Tree) (before : Option Clash)
        → IsFirstRepeat row c (child_elements_of e) repeat
        → length trail.now + content_height e.content ≤ PATH_LIMIT
        → IsFirstClashSoFar (record { kind = row; scope = c; path = trail.now })
        (child_elements_of e)
        before
        (record { count = length (child_elements_of e); clear = clear; clash = found.old.clash })
        → IsFirstClashAfter before (RepeatsKeyAt row c (child_elements_of e)) trail.now
        found.new.clash }
{
    let Some(repeat) = repeat else {
        return;
    };
    if clear < repeat.child {
        return;
    }
    let here = trail.child(repeat.child);
    let Some(path) = here.path() else {
        return;
    };
    found.clash = Some(Clash {
        path,
        key: repeat.key,
    });
}

/// Adds what is found in the content of an element of this kind, in the scope inside it; the
/// trail leads to the element.
#[cycle(walk)]
pub(crate) fn walk_inside(
    alloc: Global,
    row: ElementKind,
    scope: &LinkedScope<'_>,
    element: &Element,
    trail: &Trail<'_>,
    found: &mut ValidationResult,
)
    ensures valid_inside { IsTrue found.new.valid
        ↔ (IsTrue found.old.valid × IsContentOfKind row scope.now element.now.content) }
    ensures formed_inside { IsTrue found.new.formed
        ↔ (IsTrue found.old.formed × AllReferencesFormed row scope.now element.now.content) }
    ensures first_clash_inside { length trail.now + content_height element.now.content ≤ PATH_LIMIT
        → IsFirstClashAfter found.old.clash
        (RepeatsKeyAt row scope.now (child_elements_of element.now)) trail.now found.new.clash }
{
    let nodes = element.nodes();
    let mut passed = ChildScan {
        count: 0,
        part: 0,
        clear: 0,
        keys: Vec::new(alloc),
        holds_all: true,
    };
    for node in nodes {
        walk_node(alloc, row, scope, node, trail, &mut passed, found);
    }
    found.valid &= may_follow(row, passed.part, END);
    let clear = passed.clear;
    let repeat = repeat_among(alloc, row, scope, element, passed);
    note_repeat(repeat, clear, trail, found);
}

// Adds what is found in a node after the children that were passed.
#[cycle(walk)]
fn walk_node<'a>(
    alloc: Global,
    row: ElementKind,
    scope: &LinkedScope<'_>,
    node: &'a Node,
    trail: &Trail<'_>,
    passed: &mut ChildScan<'a>,
    found: &mut ValidationResult,
)
    requires clear_bounded { passed.old.clear ≤ passed.old.count }
    requires count_bounded { passed.old.count < 2 ^ 63 }
    ensures valid_with_node { IsTrue found.new.valid
        ↔ (IsTrue found.old.valid × IsNodeValid row scope.now passed.old.part node.now) }
    ensures formed_with_node { IsTrue found.new.formed
        ↔ (IsTrue found.old.formed × IsFormedNode row scope.now node.now) }
    ensures next_part { passed.new.part ≡ part_after_node row scope.now passed.old.part node.now }
    ensures counts_node { passed.new.count ≡ count_with_node node.now passed.old.count }
    ensures clear_at_most { passed.new.clear ≤ passed.new.count }
    ensures enters_key { AddsKey row scope.now node.now passed.old passed.new }
    ensures clash_in_node { length trail.now + node_height node.now ≤ PATH_LIMIT
        → FindsFirstClash (record { kind = row; scope = scope.now; path = trail.now }) node.now
        (clash_scan passed.old found.old.clash) (clash_scan passed.new found.new.clash) }
{
    match node {
        Node::Elem(child_element) => validate_child(
            alloc,
            row,
            scope,
            child_element,
            trail,
            passed,
            found,
        ),
        Node::Chars(text) => {
            found.valid &= is_text_allowed(row, text.as_str());
        }
        Node::Comment(_) => {}
    }
}

// Adds what is found in a child after the children that were passed.
#[cycle(walk)]
fn validate_child<'a>(
    alloc: Global,
    row: ElementKind,
    scope: &LinkedScope<'_>,
    child_element: &'a Element,
    trail: &Trail<'_>,
    passed: &mut ChildScan<'a>,
    found: &mut ValidationResult,
)
    requires clear_bounded { passed.old.clear ≤ passed.old.count }
    requires count_bounded { passed.old.count < 2 ^ 63 }
    ensures valid_with_child { IsTrue found.new.valid
        ↔ (IsTrue found.old.valid
        × IsNodeValid row scope.now passed.old.part (Elem child_element.now)) }
    ensures formed_with_child { IsTrue found.new.formed
        ↔ (IsTrue found.old.formed × IsFormedNode row scope.now (Elem child_element.now)) }
    ensures next_part { passed.new.part
        ≡ part_after_node row scope.now passed.old.part (Elem child_element.now) }
    ensures counts_child { passed.new.count ≡ suc passed.old.count }
    ensures clear_at_most { passed.new.clear ≤ passed.new.count }
    ensures enters_key { AddsKey row scope.now (Elem child_element.now) passed.old passed.new }
    ensures clash_in_child { length trail.now + height child_element.now ≤ PATH_LIMIT
        → FindsFirstClash (record { kind = row; scope = scope.now; path = trail.now })
        (Elem child_element.now)
        (clash_scan passed.old found.old.clash) (clash_scan passed.new found.new.clash) }
{
    let declared = index_decls(alloc, child_element.decls());
    let inside = (&*scope).inside(&declared);
    let child = find_placement(row, &inside, child_element.name());
    found.valid &= may_follow(row, passed.part, child.part);
    let here = trail.child(passed.count);
    walk_if_kind(alloc, child.kind, &inside, child_element, &here, found);
    passed.add(child, child_element.attrs(), found.clash.is_some());
}

/// Adds what is found in an element of this kind, in the scope that ends with its own
/// declarations; the trail leads to the element. Nothing is found in one without a kind.
#[cycle(walk)]
pub(crate) fn walk_if_kind(
    alloc: Global,
    kind: Option<ElementKind>,
    scope: &LinkedScope<'_>,
    element: &Element,
    trail: &Trail<'_>,
    found: &mut ValidationResult,
)
    ensures valid_with_element { IsTrue found.new.valid
        ↔ (IsTrue found.old.valid
        × ForSome kind (λ known. IsValidOfKind known scope.now element.now)) }
    ensures formed_with_element { IsTrue found.new.formed
        ↔ (IsTrue found.old.formed
        × ForSome kind (λ known. IsFormedOfKind known scope.now element.now)) }
    ensures first_clash_below { length trail.now + content_height element.now.content ≤ PATH_LIMIT
        → IsFirstClashAfter found.old.clash
        (RepeatsKeyIfKnown kind scope.now element.now) trail.now found.new.clash }
{
    let Some(known) = kind else {
        return;
    };
    found.valid &= are_attrs_allowed(known, scope, element.attrs());
    found.formed &= are_references_formed(known, element);
    walk_inside(alloc, known, scope, element, trail, found);
}
