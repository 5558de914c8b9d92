//! Repeated keys among siblings (RFC 4826, sections 3.4.5 and 4.4.5).
ghost use Rattle.std.specs.Prelude.{◌≡◌, ◌↔◌, List, IsTrue, OnOk, length};
ghost use Rattle.xml_tree.specs.Tree.{Tree};
ghost use Rattle.usage_docs.specs.declared.schema_table.ElementKind.{ElementKind};
ghost use Rattle.usage_docs.specs.SchemaTable.{Scope};
ghost use Rattle.usage_docs.specs.readers.KeyRepeats.{EntersKey, HoldsKeys, IsFirstRepeat};
ghost use Rattle.usage_docs.specs.readers.KeyRepeats.{IsLeastPair};
ghost use Rattle.usage_docs.specs.readers.KeyRepeats.{IsRepeatPair, earlier_child};
ghost use Rattle.usage_docs.specs.readers.KeyRepeats.{sibling_key_by_attrs};

use crate::attributes::{key_of, key_text};
use crate::schema_table::{ElementKind, Key};
use std::alloc::AllocError;
use xml_names::{Attr, Text};
use xml_tree::Path;

/// An element whose key equals the key of an earlier sibling of its kind.
#[derive(Debug, Drop)]
pub struct Clash {
    /// Where the element is.
    pub path: Path,
    /// The name of the key.
    pub key: Key,
}

/// What has to be unique among siblings, a kind and the value of its key, and the number of the
/// child that has it.
#[derive(Drop, PartialEq, Eq, PartialOrd, Ord)]
pub(crate) struct KeyedChild<'a> {
    kind: ElementKind,
    value: &'a Text,
    child: usize,
}

/// A child that has the kind and the key of an earlier one.
#[derive(Clone, Copy, Drop)]
pub(crate) struct KeyRepeat {
    /// The number of the child.
    pub child: usize,
    /// The name of the key.
    pub key: Key,
}

/// Adds the key of a child that has this kind and these attributes to the keys of its siblings,
/// if it has one.
///
/// # Errors
/// `AllocError` when out of memory.
pub(crate) fn enter_key<'a>(
    seen: &mut Vec<KeyedChild<'a>>,
    kind: Option<ElementKind>,
    attrs: &'a [Attr],
    child: usize,
) -> Result<(), AllocError>
    ensures enters_key { OnOk result
        (EntersKey (sibling_key_by_attrs kind attrs.now) child seen.old.items seen.new.items) }
{
    let Some(kind) = kind else {
        return Ok(());
    };
    let Some(value) = key_text(kind, attrs) else {
        return Ok(());
    };
    seen.push(KeyedChild { kind, value, child })?;
    Ok(())
}

// Whether two entries have the same kind and the same value of its key, and the second child
// comes after the first.
fn is_repeat_pair(one: &KeyedChild<'_>, other: &KeyedChild<'_>) -> bool
    ensures exact { IsTrue result ↔ IsRepeatPair one.now other.now }
{
    one.kind == other.kind && one.value == other.value && one.child < other.child
}

// The earlier child: this one, or the one found so far.
fn earlier_child(
    child: (usize, ElementKind),
    found: Option<(usize, ElementKind)>,
) -> (usize, ElementKind)
    ensures exact { result ≡ earlier_child child found }
{
    match found {
        Some(least) if least.0 <= child.0 => least,
        _ => child,
    }
}

// Of neighbours in a sorted list that have the same key, the second child; of these the earliest,
// with its kind.
fn first_repeat_pair(keys: &[KeyedChild<'_>]) -> Option<(usize, ElementKind)>
    ensures is_least_pair { IsLeastPair keys.now (length keys.now) result }
{
    let mut found = None;
    for at in 1..keys.len() {
        let other = &keys[at];
        if is_repeat_pair(&keys[at - 1], other) {
            found = Some(earlier_child((other.child, other.kind), found));
        }
    }
    found
}

/// The first child that has the kind and the key of an earlier one, by the keys of all: they are
/// sorted, so that equal ones are neighbours. Does not allocate.
pub(crate) fn first_repeat(mut keys: Vec<KeyedChild<'_>>) -> Option<KeyRepeat>
    ensures is_first_repeat { (row : ElementKind) (c : Scope) (xs : List Tree)
        → HoldsKeys row c xs (length xs) keys.entry.items → IsFirstRepeat row c xs result }
{
    keys.sort_unstable();
    let Some(least) = first_repeat_pair(&keys) else {
        return None;
    };
    let Some(key) = key_of(least.1) else {
        return None;
    };
    Some(KeyRepeat {
        child: least.0,
        key,
    })
}
