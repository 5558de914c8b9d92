//! The line about a change.
ghost use Rattle.std.specs.Prelude.{◌≡◌, ◌++◌, ◌∷◌, [], IfOk, OnOk, codes, encode_utf8_all};
ghost use Rattle.std.specs.Prelude.{string_bytes};
ghost use Rattle.xml_names.specs.Markup.{print_name};
ghost use Rattle.watchers.specs.AuditLines.{attr_bytes, change_bytes, audit_line_bytes};
ghost use Rattle.watchers.specs.AuditLines.{place_bytes};

use doc_names::{DocId, print_doc_id};
use edit_ops::{Change, EditNote};
use std::alloc::{AllocError, Global};
use xml_names::Name;
use xml_tree::{Path, print_path};

// Appends a name as it is written.
fn push_name(line: &mut String, name: &Name) -> Result<(), AllocError>
    ensures appended { OnOk result
        (string_bytes line.new ≡ string_bytes line.old ++ encode_utf8_all (print_name name.now)) }
{
    if name.prefix.is_empty() {
        return line.push_str(name.local.as_str());
    }
    line.push_str(name.prefix.as_str())?;
    line.push_str(":")?;
    line.push_str(name.local.as_str())?;
    Ok(())
}

// Appends a word, a space and the selector of a place.
fn push_place(alloc: Global, line: &mut String, word: &str, path: &Path) -> Result<(), AllocError>
    ensures adds_place { OnOk result
        (string_bytes line.new ≡ string_bytes line.old ++ place_bytes word.now path.now) }
{
    let place = print_path(alloc, path)?;
    line.push_str(word)?;
    line.push_str(" ")?;
    line.push_str(place.as_str())
}

// Appends a word, a space and the place of an inserted element: the selector of its parent, and
// one more step.
fn push_new_place(
    alloc: Global,
    line: &mut String,
    parent: &Path,
    gap: usize,
) -> Result<(), AllocError>
    ensures appended { OnOk result
        (string_bytes line.new
        ≡ string_bytes line.old ++ place_bytes (codes "insert") (parent.now ++ gap ∷ [])) }
{
    push_place(alloc, line, "insert", parent)?;
    let step = format!(in alloc; "/*[{}]", gap as u128 + 1)?;
    line.push_str(&step)?;
    Ok(())
}

// Appends `/@` and the name of an attribute.
fn push_attr(line: &mut String, name: &Name) -> Result<(), AllocError>
    ensures adds_attribute { OnOk result
        (string_bytes line.new ≡ string_bytes line.old ++ attr_bytes name.now) }
{
    line.push_str("/@")?;
    push_name(line, name)
}

// Appends the word and the place of a change.
fn push_change(alloc: Global, line: &mut String, change: &Change) -> Result<(), AllocError>
    ensures appended { OnOk result
        (string_bytes line.new ≡ string_bytes line.old ++ change_bytes change.now) }
{
    match change {
        Change::CreateDocument { .. } => line.push_str("create"),
        Change::Insert { parent, gap, .. } => push_new_place(alloc, line, parent, *gap),
        Change::Replace { at, .. } => push_place(alloc, line, "replace", at),
        Change::Remove { at } => push_place(alloc, line, "remove", at),
        Change::SetAttr { at, name, .. } => {
            push_place(alloc, line, "set", at)?;
            push_attr(line, name)
        }
        Change::DropAttr { at, name } => {
            push_place(alloc, line, "drop", at)?;
            push_attr(line, name)
        }
        Change::RemoveDocument => line.push_str("delete"),
    }
}

/// The line about a change: its number, the document's printed id, a word, and for all changes but
/// the creation and the removal of a document the place of the change as a selector.
pub(crate) fn audit_line(alloc: Global, doc: &DocId, note: &EditNote) -> Result<String, AllocError>
    ensures ok { IfOk result
        (λ line. string_bytes line ≡ audit_line_bytes (record { doc = doc.now; note = note.now })) }
{
    let id = print_doc_id(alloc, doc)?;
    let mut line = format!(in alloc; "{} ", note.next())?;
    line.push_str(id.as_str())?;
    line.push_str(" ")?;
    push_change(alloc, &mut line, note.change())?;
    line.push_str("\n")?;
    Ok(line)
}
