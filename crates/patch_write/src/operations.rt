//! The operation of a change record (RFC 5261, sections 4.3 to 4.5).
ghost use Rattle.std.specs.Prelude.{◌≡◌, [], ◌∷◌, ◌++◌, IfOk, OnOk, chars, codes, false, true};
ghost use Rattle.edit_ops.specs.declared.change.Change.TheVariants as change;
ghost use Rattle.xml_tree.specs.Edits.{with_elem};
ghost use Rattle.xml_tree.specs.PathTexts.{path_text};
ghost use Rattle.xml_names.specs.Markup.{print_name};
ghost use Rattle.xml_tree.specs.Tree.{last};
ghost use Rattle.edit_ops.specs.DiffOperations.{attr_name_text, attr_path_text, insertion_attrs};
ghost use Rattle.edit_ops.specs.DiffOperations.{operation};
ghost use Rattle.edit_ops.specs.DiffOperations.{operation_of, plain_attr, sel_attr};
ghost use Rattle.edit_ops.specs.DiffOperations.{change_operation};

use edit_ops::{Change, EditNote};
use patch_rules::{new_diff_element, push_plain_attr};
use std::alloc::{AllocError, Global};
use xml_names::{Decl, Name, Prefix, Text};
use xml_tree::{Element, Path, copy_tree, print_path};

// ---- the selector of an operation

// The selector of a child element.
fn child_selector(alloc: Global, parent: &Path, child: usize) -> Result<Text, AllocError>
    ensures ok { IfOk result (λ text. text ≡ path_text (parent.now ++ child ∷ [])) }
{
    let mut text = print_path(alloc, parent)?;
    let step = format!(in alloc; "/*[{}]", child as u128 + 1)?;
    text.push_str(&step)?;
    Ok(text)
}

// Adds a name as it is written.
#[tactic(auto, using(crate::proofs::WrittenNames::bare_name))]
fn push_name(text: &mut Text, name: &Name) -> Result<(), AllocError>
    ensures appended { OnOk result (text.new ≡ text.old ++ print_name name.now) }
{
    if name.prefix.is_empty() {
        return text.push_str(name.local.as_str());
    }
    text.push_str(name.prefix.as_str())?;
    text.push(':')?;
    text.push_str(name.local.as_str())?;
    Ok(())
}

// The name of an attribute, after `@`.
#[tactic(auto, using(crate::proofs::Words::words))]
fn attribute_name_text(alloc: Global, name: &Name) -> Result<Text, AllocError>
    ensures ok { IfOk result (λ text. text ≡ attr_name_text name.now) }
{
    let mut text = Text::from(alloc, "@")?;
    push_name(&mut text, name)?;
    Ok(text)
}

// The selector of an element's attribute.
#[tactic(auto, using(crate::proofs::Words::words))]
fn attribute_selector(alloc: Global, at: &Path, name: &Name) -> Result<Text, AllocError>
    ensures ok { IfOk result (λ text. text ≡ attr_path_text at.now name.now) }
{
    let mut text = print_path(alloc, at)?;
    text.push_str("/@")?;
    push_name(&mut text, name)?;
    Ok(text)
}

// ---- each operation

// Declares bindings in an element that declares nothing.
fn push_bindings(alloc: Global, made: &mut Element, bindings: &[Decl]) -> Result<(), AllocError>
    requires { made.old.decls ≡ [] }
    ensures declares_bindings { OnOk result (made.new ≡ record made.old { decls = bindings.now }) }
{
    for binding in bindings {
        made.push_decl(binding.copy(alloc)?)?;
    }
    Ok(())
}

// Adds a copy of an element that was put.
fn push_copy(alloc: Global, made: &mut Element, element: &Element) -> Result<(), AllocError>
    ensures adds_element { OnOk result
        (made.new ≡ record made.old { content = with_elem element.now made.old.content }) }
{
    let copy = copy_tree(alloc, element)?;
    made.push_elem(copy)
}

// The element of an operation, with the record's bindings as declarations.
fn bare_operation(
    alloc: Global,
    prefix: &Prefix,
    bindings: &[Decl],
    word: &str,
) -> Result<Element, AllocError>
    ensures declares_bindings { IfOk result
        (λ made. made ≡ operation_of prefix.now bindings.now (chars word.now) [] (last [])) }
{
    let mut made = new_diff_element(alloc, prefix, word)?;
    push_bindings(alloc, &mut made, bindings)?;
    Ok(made)
}

// The element of an operation, with those declarations and a selector.
#[tactic(auto, using(crate::proofs::Words::words))]
fn operation_element(
    alloc: Global,
    prefix: &Prefix,
    bindings: &[Decl],
    word: &str,
    sel: Text,
) -> Result<Element, AllocError>
    ensures ok { IfOk result
        (λ made. made ≡ operation_of prefix.now bindings.now (chars word.now) (sel_attr sel ∷ [])
        (last [])) }
{
    let mut made = bare_operation(alloc, prefix, bindings, word)?;
    push_plain_attr(alloc, &mut made, "sel", sel)?;
    Ok(made)
}

// An insertion: before all nodes of the parent, or directly after the preceding child element.
fn insertion(
    alloc: Global,
    prefix: &Prefix,
    bindings: &[Decl],
    parent: &Path,
    gap: usize,
    element: &Element,
) -> Result<Element, AllocError>
    ensures ok { IfOk result
        (λ made. made ≡ change_operation prefix.now bindings.now false
        (change.Insert parent.now gap element.now)) }
{
    let mut made = insertion_operation(alloc, prefix, bindings, parent, gap)?;
    push_copy(alloc, &mut made, element)?;
    Ok(made)
}

// An operation that adds something at a place, by a selector and the value of `pos`.
#[tactic(auto, using(crate::proofs::Words::words))]
fn positioned_operation(
    alloc: Global,
    prefix: &Prefix,
    bindings: &[Decl],
    sel: Text,
    pos: &str,
) -> Result<Element, AllocError>
    ensures ok { IfOk result
        (λ made. made ≡ operation_of prefix.now bindings.now (codes "add")
        (sel_attr sel ∷ plain_attr (codes "pos") (chars pos.now) ∷ []) (last [])) }
{
    let pos = Text::from(alloc, pos)?;
    let mut made = operation_element(alloc, prefix, bindings, "add", sel)?;
    push_plain_attr(alloc, &mut made, "pos", pos)?;
    Ok(made)
}

// The operation of an insertion, without the inserted element.
#[tactic(auto, using(crate::proofs::Words::words))]
fn insertion_operation(
    alloc: Global,
    prefix: &Prefix,
    bindings: &[Decl],
    parent: &Path,
    gap: usize,
) -> Result<Element, AllocError>
    ensures ok { IfOk result
        (λ made. made ≡ operation_of prefix.now bindings.now (codes "add")
        (insertion_attrs parent.now gap) (last [])) }
{
    if gap == 0 {
        let sel = print_path(alloc, parent)?;
        return positioned_operation(alloc, prefix, bindings, sel, "prepend");
    }
    let sel = child_selector(alloc, parent, gap - 1)?;
    positioned_operation(alloc, prefix, bindings, sel, "after")
}

// The replacement of an element.
#[tactic(auto, using(crate::proofs::Words::words))]
fn replacement(
    alloc: Global,
    prefix: &Prefix,
    bindings: &[Decl],
    at: &Path,
    element: &Element,
) -> Result<Element, AllocError>
    ensures ok { IfOk result
        (λ made. made ≡ change_operation prefix.now bindings.now false
        (change.Replace at.now element.now)) }
{
    let sel = print_path(alloc, at)?;
    let mut made = operation_element(alloc, prefix, bindings, "replace", sel)?;
    push_copy(alloc, &mut made, element)?;
    Ok(made)
}

// The removal of an element.
#[tactic(auto, using(crate::proofs::Words::words))]
fn removal(
    alloc: Global,
    prefix: &Prefix,
    bindings: &[Decl],
    at: &Path,
) -> Result<Element, AllocError>
    ensures ok { IfOk result
        (λ made. made ≡ change_operation prefix.now bindings.now false (change.Remove at.now)) }
{
    let sel = print_path(alloc, at)?;
    operation_element(alloc, prefix, bindings, "remove", sel)
}

// A change of an attribute: it is added where it is new, else replaced.
fn attribute_operation(
    alloc: Global,
    prefix: &Prefix,
    bindings: &[Decl],
    fresh: bool,
    at: &Path,
    name: &Name,
    value: &Text,
) -> Result<Element, AllocError>
    ensures ok { IfOk result
        (λ made. made ≡ change_operation prefix.now bindings.now fresh
        (change.SetAttr at.now name.now value.now)) }
{
    let mut made = empty_attribute_operation(alloc, prefix, bindings, fresh, at, name)?;
    made.push_chars(value.as_str())?;
    Ok(made)
}

// The addition of an attribute, without its value.
#[tactic(auto, using(crate::proofs::Words::words))]
fn attribute_addition(
    alloc: Global,
    prefix: &Prefix,
    bindings: &[Decl],
    at: &Path,
    name: &Name,
) -> Result<Element, AllocError>
    ensures ok { IfOk result
        (λ made. made ≡ change_operation prefix.now bindings.now true
        (change.SetAttr at.now name.now [])) }
{
    let sel = print_path(alloc, at)?;
    let kind = attribute_name_text(alloc, name)?;
    let mut made = operation_element(alloc, prefix, bindings, "add", sel)?;
    push_plain_attr(alloc, &mut made, "type", kind)?;
    Ok(made)
}

// The addition or replacement of an attribute, without its value.
#[tactic(auto, using(crate::proofs::Words::words))]
fn empty_attribute_operation(
    alloc: Global,
    prefix: &Prefix,
    bindings: &[Decl],
    fresh: bool,
    at: &Path,
    name: &Name,
) -> Result<Element, AllocError>
    ensures ok { IfOk result
        (λ made. made ≡ change_operation prefix.now bindings.now fresh
        (change.SetAttr at.now name.now [])) }
{
    if fresh {
        return attribute_addition(alloc, prefix, bindings, at, name);
    }
    let sel = attribute_selector(alloc, at, name)?;
    operation_element(alloc, prefix, bindings, "replace", sel)
}

// The removal of an attribute.
#[tactic(auto, using(crate::proofs::Words::words))]
fn attribute_removal(
    alloc: Global,
    prefix: &Prefix,
    bindings: &[Decl],
    at: &Path,
    name: &Name,
) -> Result<Element, AllocError>
    ensures ok { IfOk result
        (λ made. made ≡ change_operation prefix.now bindings.now false
        (change.DropAttr at.now name.now)) }
{
    let sel = attribute_selector(alloc, at, name)?;
    operation_element(alloc, prefix, bindings, "remove", sel)
}

// The operation of a change. A change of a whole document has none: an empty `remove` is returned
// for it.
#[tactic(auto, using(crate::proofs::Words::words))]
fn change_operation(
    alloc: Global,
    prefix: &Prefix,
    bindings: &[Decl],
    fresh: bool,
    change: &Change,
) -> Result<Element, AllocError>
    ensures ok { IfOk result (λ made.
        made ≡ change_operation prefix.now bindings.now fresh change.now) }
{
    match change {
        Change::CreateDocument { .. } => bare_operation(alloc, prefix, bindings, "remove"),
        Change::Insert {
            parent,
            gap,
            element,
        } => insertion(alloc, prefix, bindings, parent, *gap, element),
        Change::Replace { at, element } => replacement(alloc, prefix, bindings, at, element),
        Change::Remove { at } => removal(alloc, prefix, bindings, at),
        Change::SetAttr { at, name, value } => {
            attribute_operation(alloc, prefix, bindings, fresh, at, name, value)
        }
        Change::DropAttr { at, name } => attribute_removal(alloc, prefix, bindings, at, name),
        Change::RemoveDocument => bare_operation(alloc, prefix, bindings, "remove"),
    }
}

/// The operation of a change record.
pub(crate) fn operation(
    alloc: Global,
    prefix: &Prefix,
    note: &EditNote,
) -> Result<Element, AllocError>
    ensures ok { IfOk result (λ made. made ≡ operation prefix.now note.now) }
{
    change_operation(
        alloc,
        prefix,
        note.bindings(),
        note.is_fresh(),
        note.change(),
    )
}
