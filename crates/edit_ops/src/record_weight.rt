//! The weight of a change record: the length of its operation, computed without printing it.
ghost use Rattle.std.specs.Prelude.{◌≡◌, ◌+◌, true, false, codes, flat_map, min};
ghost use Rattle.xml_tree.specs.Tree.{Tree};
ghost use Rattle.xml_names.specs.Markup.{byte_len, print_attr, print_decl};
ghost use Rattle.xml_tree.specs.Print.{print};
ghost use Rattle.edit_ops.specs.declared.change.Change.TheVariants as change;
ghost use Rattle.edit_ops.specs.PrintedLengths.{element_len};
ghost use Rattle.edit_ops.specs.DiffOperations.{attr_path_text, insertion_attrs, weight_of};
ghost use Rattle.edit_ops.specs.DiffOperations.{change_operation};
ghost use Rattle.edit_ops.specs.inner.OperationLengths.{empty_element_len as bare_sum};
ghost use Rattle.edit_ops.specs.inner.OperationLengths.{full_element_len as filled_sum};
ghost use Rattle.edit_ops.specs.inner.OperationLengths.{text_element_len as valued_sum};
ghost use Rattle.edit_ops.specs.inner.OperationLengths.{value_text_len};

use crate::Change;
use crate::record_lengths::{name_len, path_len, step_len, text_len};
use xml_names::{Decl, Name, Text, decls_len};
use xml_tree::Path;

// ---- the names of operations and their attributes

const ADD: usize = 3;

const REPLACE: usize = 7;

const REMOVE: usize = 6;

// ` sel=""`, ` type="@"`, ` pos="prepend"`, ` pos="after"`, `/@`
const SEL: usize = 7;

const TYPE: usize = 9;

const PREPEND: usize = 14;

const AFTER: usize = 12;

const AT: usize = 2;

// ---- an operation by its parts

// Without content; `word` and `attrs` are the lengths of its name and of its attributes.
fn empty_element_len(word: usize, bindings: &[Decl], attrs: usize) -> usize
    ensures exact { result
        ≡ min (bare_sum word (byte_len (flat_map print_decl bindings.now)) attrs) usize.MAX }
{
    decls_len(bindings)
        .saturating_add(attrs)
        .saturating_add(word)
        .saturating_add(5)
}

// With content.
fn full_element_len(word: usize, bindings: &[Decl], attrs: usize, inside: usize) -> usize
    ensures exact { result
        ≡ min (filled_sum word (byte_len (flat_map print_decl bindings.now)) attrs inside)
        usize.MAX }
{
    decls_len(bindings)
        .saturating_add(attrs)
        .saturating_add(inside)
        .saturating_add(word)
        .saturating_add(word)
        .saturating_add(9)
}

// With a value as its text.
fn text_element_len(word: usize, bindings: &[Decl], attrs: usize, value: &Text) -> usize
    ensures exact { result
        ≡ min (valued_sum word (byte_len (flat_map print_decl bindings.now)) attrs value.now)
        usize.MAX }
{
    if value.is_empty() {
        return empty_element_len(word, bindings, attrs);
    }
    full_element_len(word, bindings, attrs, text_len(value))
}

// ---- each operation

// The attributes that say where an element is inserted.
fn gap_len(parent: &Path, gap: usize) -> usize
    ensures exact { result
        ≡ min (byte_len (flat_map print_attr (insertion_attrs parent.now gap))) usize.MAX }
{
    let sel = path_len(parent).saturating_add(SEL);
    if gap == 0 {
        return sel.saturating_add(PREPEND);
    }
    sel.saturating_add(step_len(gap - 1)).saturating_add(AFTER)
}

// An insertion of an element of `put` bytes.
fn insertion_len(bindings: &[Decl], parent: &Path, gap: usize, put: usize) -> usize
    ensures exact { (e : Tree) → put ≡ min (byte_len (print e)) usize.MAX
        → result ≡ min (byte_len
        (print (change_operation (codes "d") bindings.now false (change.Insert parent.now gap e))))
        usize.MAX }
{
    full_element_len(ADD, bindings, gap_len(parent, gap), put)
}

// A replacement by an element of `put` bytes.
fn replacement_len(bindings: &[Decl], at: &Path, put: usize) -> usize
    ensures exact { (e : Tree) → put ≡ min (byte_len (print e)) usize.MAX
        → result
        ≡ min (byte_len
        (print (change_operation (codes "d") bindings.now false (change.Replace at.now e))))
        usize.MAX }
{
    let attrs = path_len(at).saturating_add(SEL);
    full_element_len(REPLACE, bindings, attrs, put)
}

fn removal_len(bindings: &[Decl], at: &Path) -> usize
    ensures exact { result
        ≡ min
        (byte_len (print (change_operation (codes "d") bindings.now false (change.Remove at.now))))
        usize.MAX }
{
    let attrs = path_len(at).saturating_add(SEL);
    empty_element_len(REMOVE, bindings, attrs)
}

// The attribute that selects an attribute.
fn attr_len(at: &Path, name: &Name) -> usize
    ensures exact { result ≡ min (value_text_len (attr_path_text at.now name.now) + 7) usize.MAX }
{
    path_len(at)
        .saturating_add(name_len(name))
        .saturating_add(AT + SEL)
}

fn attr_removal_len(bindings: &[Decl], at: &Path, name: &Name) -> usize
    ensures exact { result
        ≡ min (byte_len (print
        (change_operation (codes "d") bindings.now false (change.DropAttr at.now name.now))))
        usize.MAX }
{
    empty_element_len(REMOVE, bindings, attr_len(at, name))
}

// A new attribute.
fn attr_addition_len(bindings: &[Decl], at: &Path, name: &Name, value: &Text) -> usize
    ensures exact { result
        ≡ min (byte_len (print
        (change_operation (codes "d") bindings.now true
        (change.SetAttr at.now name.now value.now))))
        usize.MAX }
{
    let attrs = path_len(at)
        .saturating_add(name_len(name))
        .saturating_add(SEL + TYPE);
    text_element_len(ADD, bindings, attrs, value)
}

// An existing attribute with a new value.
fn attr_replacement_len(bindings: &[Decl], at: &Path, name: &Name, value: &Text) -> usize
    ensures exact { result
        ≡ min (byte_len (print
        (change_operation (codes "d") bindings.now false
        (change.SetAttr at.now name.now value.now))))
        usize.MAX }
{
    text_element_len(REPLACE, bindings, attr_len(at, name), value)
}

fn attr_change_len(bindings: &[Decl], at: &Path, name: &Name, value: &Text, fresh: bool) -> usize
    ensures exact { result
        ≡ min (byte_len (print
        (change_operation (codes "d") bindings.now fresh
        (change.SetAttr at.now name.now value.now))))
        usize.MAX }
{
    if fresh {
        return attr_addition_len(bindings, at, name, value);
    }
    attr_replacement_len(bindings, at, name, value)
}

// The length in bytes of the operation of a change, as an xcap-diff document with the prefix `d`
// has it (RFC 5261, section 4), by the bindings of its place, by whether it is fresh, and by the
// length of the element that it inserts: `usize::MAX` if it is longer, and 0 for a document that
// is created or removed.
pub(crate) fn weight(bindings: &[Decl], fresh: bool, change: &Change, put: usize) -> usize
    requires length_of_part { put ≡ min (element_len change.now) usize.MAX }
    ensures exact { result ≡ min (weight_of bindings.now fresh change.now) usize.MAX }
{
    match change {
        Change::CreateDocument { .. } => 0,
        Change::Insert { parent, gap, .. } => insertion_len(bindings, parent, *gap, put),
        Change::Replace { at, .. } => replacement_len(bindings, at, put),
        Change::Remove { at } => removal_len(bindings, at),
        Change::SetAttr { at, name, value } => attr_change_len(bindings, at, name, value, fresh),
        Change::DropAttr { at, name } => attr_removal_len(bindings, at, name),
        Change::RemoveDocument => 0,
    }
}
