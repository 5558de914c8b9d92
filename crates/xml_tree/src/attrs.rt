//! Work on the attributes of an element, which are in the order in which they are written.
ghost use Rattle.std.specs.Prelude.{◌≡◌, ◌<◌, ◌++◌, ◌∷◌, [], suc, length, vec_capacity, None, Some};
ghost use Rattle.std.specs.Prelude.{IfOk, OnOk, OnErr, option_map, slice_get, ◌≤◌};
ghost use Rattle.std.specs.List.{find, remove};
ghost use Rattle.xml_names.specs.Attributes.{has_qname, with_attr, with_value_at, without_attr};
ghost use Rattle.xml_tree.specs.Reservations.{HasCapacity};
ghost use Rattle.std.specs.Option.{option_copied};
ghost use Rattle.xml_tree.specs.inner.Attributes.{first_index};

use std::alloc::AllocError;
use std::mem;
use xml_names::{Attr, Name, Text};

// Appends an attribute.
pub(crate) fn push(attrs: &mut Vec<Attr>, attr: Attr) -> Result<(), AllocError>
    ensures adds_attribute { OnOk result (attrs.new.items ≡ attrs.old.items ++ attr ∷ []) }
    ensures err_unchanged { OnErr result (attrs.new.items ≡ attrs.old.items) }
{
    attrs.push(attr)?;
    Ok(())
}

// Replaces a value, and returns the old one.
pub(crate) fn exchange_value(attrs: &mut Vec<Attr>, at: usize, value: Text) -> Text
    requires { at < length attrs.old.items }
    ensures former_value { option_map (λ attr. attr.value) (slice_get attrs.old.items at)
        ≡ Some result }
    ensures value_replaced { attrs.new.items ≡ with_value_at at value attrs.old.items }
{
    mem::replace(&mut attrs[at].value, value)
}

// Writes the attribute of a name, at the end if it is new, and returns the old value.
#[tactic(auto, using(crate::proofs::AttrLemmas::by_place))]
pub(crate) fn set(
    attrs: &mut Vec<Attr>,
    name: Name,
    value: Text,
) -> Result<Option<Text>, AllocError>
    ensures former_value { IfOk result
        (λ old. old ≡ option_map (λ attr. attr.value) (find (has_qname name) attrs.old.items)) }
    ensures writes_attribute { OnOk result
        (attrs.new.items ≡ with_attr name value attrs.old.items) }
    ensures err_unchanged { OnErr result (attrs.new.items ≡ attrs.old.items) }
    ensures err_if_new { OnErr result (find (has_qname name) attrs.old.items ≡ None) }
{
    let place = attr_index(attrs, &name);
    if place < attrs.len() {
        return Ok(Some(exchange_value(attrs, place, value)));
    }
    push(attrs, Attr { name, value })?;
    Ok(None)
}

// Removes an attribute.
pub(crate) fn take_at(attrs: &mut Vec<Attr>, at: usize) -> Attr
    requires { at < length attrs.old.items }
    ensures attribute_taken { slice_get attrs.old.items at ≡ Some result }
    ensures attribute_is_gone { attrs.new.items ≡ remove attrs.old.items at }
{
    attrs.remove(at)
}

// Removes the attribute of a name, if there is one.
#[tactic(auto, using(crate::proofs::AttrLemmas::by_place))]
pub(crate) fn take(attrs: &mut Vec<Attr>, name: &Name) -> Option<Attr>
    ensures attribute_taken { result ≡ find (has_qname name.now) attrs.old.items }
    ensures attribute_is_gone { attrs.new.items ≡ without_attr name.now attrs.old.items }
{
    let place = attr_index(attrs, name);
    if place < attrs.len() {
        return Some(take_at(attrs, place));
    }
    None
}

// Appends an attribute. All attributes move into `room`, which has capacity for them and one
// more.
fn push_attr_reserved(attrs: &mut Vec<Attr>, attr: Attr, room: Vec<Attr>)
    requires { HasCapacity (suc (length attrs.old.items)) room }
    ensures adds_attribute { attrs.new.items ≡ attrs.old.items ++ attr ∷ [] }
{
    let mut moved = room;
    moved.append(attrs).unwrap();
    *attrs = moved;
    attrs.push(attr).unwrap();
}

// Writes the attribute of a name. If it is new, all attributes move into `room`, which then has
// capacity for them and one more.
#[tactic(auto, using(crate::proofs::AttrLemmas::by_place))]
pub(crate) fn set_in_room(attrs: &mut Vec<Attr>, name: Name, value: Text, room: Vec<Attr>)
    requires empty { room.items ≡ [] }
    requires room_left { find (has_qname name) attrs.old.items ≡ None
        → length attrs.old.items < vec_capacity room }
    ensures writes_attribute { attrs.new.items ≡ with_attr name value attrs.old.items }
{
    let place = attr_index(attrs, &name);
    if place < attrs.len() {
        let _old = exchange_value(attrs, place, value);
        return;
    }
    push_attr_reserved(attrs, Attr { name, value }, room);
}

// The first attribute of this name.
pub(crate) fn find_attr<'a>(attrs: &'a [Attr], name: &Name) -> Option<&'a Attr>
    ensures exact { option_copied result ≡ find (has_qname name.now) attrs.now }
{
    for attr in attrs {
        if attr.name.same(name) {
            return Some(attr);
        }
    }
    None
}

// The place of the first attribute of this name, or the number of attributes.
pub(crate) fn attr_index(attrs: &[Attr], name: &Name) -> usize
    ensures exact { result ≡ first_index (has_qname name.now) attrs.now }
    ensures lies_within { result ≤ length attrs.now }
{
    for (i, attr) in attrs.iter().enumerate() {
        if attr.name.same(name) {
            return i;
        }
    }
    attrs.len()
}
