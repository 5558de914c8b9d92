// The fields of a head that have a given name, ignoring the case of letters (RFC 9110, section
// 5.1).
ghost use Rattle.std.specs.Prelude.{◌≡◌, ◌≢◌, ◌<◌, ◌∷◌, [], length, IsTrue, IfOk, MatchOption};
ghost use Rattle.std.specs.List.{list_all};
ghost use Rattle.std.specs.Char.{is_ascii};
ghost use Rattle.http_wire.specs.Fields.{same_ignoring_case};
ghost use Rattle.request_checks.specs.Rights.{fields_named};

use http_wire::{Field, is_same_ignoring_case};
use std::alloc::{AllocError, Global};
use xcap_io::Bytes;
use xml_names::{List, Text};

/// Whether a text is this word, ignoring the case of letters. Does not allocate.
pub fn is_field_name(text: &Text, word: &[u8]) -> bool
    requires { IsTrue (list_all is_ascii word.now) }
    ensures exact { result ≡ same_ignoring_case text.now word.now }
{
    text.as_str().as_bytes().eq_ignore_ascii_case(word)
}

// The value of the first field of this name, and the fields after it.
fn find_field<'a>(mut fields: &'a [Field], name: &[u8]) -> Option<(&'a Bytes, &'a [Field])>
    requires { IsTrue (list_all is_ascii name.now) }
    ensures first_and_others { MatchOption result (fields_named name.now fields.now ≡ [])
        (λ found. fields_named name.now fields.now
        ≡ found.0.now ∷ fields_named name.now found.1.now) }
    ensures rest_shrinks { MatchOption result (Unit {0})
        (λ found. length found.1.now < length fields.now) }
{
    'fields: while let [field, rest @ ..] = fields {
        if is_field_name(&field.name, name) {
            return Some((&field.value, rest));
        }
        fields = rest;
    }
    None
}

// The value of the only field of this name; None where there isn't exactly one.
pub fn single_value<'a>(fields: &'a [Field], name: &[u8]) -> Option<&'a [u8]>
    requires { IsTrue (list_all is_ascii name.now) }
    ensures value_if_single { MatchOption result (length (fields_named name.now fields.now) ≢ 1)
        (λ value. fields_named name.now fields.now ≡ value.now ∷ []) }
{
    let (value, rest) = find_field(fields, name)?;
    match find_field(rest, name) {
        Some(_) => None,
        None => Some(value.as_slice()),
    }
}

// Whether each value of the fields of this name is this word, ignoring the case of letters.
pub fn all_values_are(mut fields: &[Field], name: &[u8], word: &[u8]) -> bool
    requires { IsTrue (list_all is_ascii name.now) }
    ensures exact { result
        ≡ list_all (λ v. same_ignoring_case v word.now) (fields_named name.now fields.now) }
{
    'fields: while let Some((value, rest)) = find_field(fields, name) {
        if !is_same_ignoring_case(value.as_slice(), word) {
            return false;
        }
        fields = rest;
    }
    true
}

// Copies the values of the fields of this name, in order.
pub fn copy_values(
    alloc: Global,
    mut fields: &[Field],
    name: &[u8],
) -> Result<List<Bytes>, AllocError>
    requires { IsTrue (list_all is_ascii name.now) }
    ensures ok { IfOk result (λ values. values ≡ fields_named name.now fields.now) }
{
    let mut values = List::empty(alloc);
    'fields: while let Some((value, rest)) = find_field(fields, name) {
        let value = value.copy(alloc)?;
        values.push(value)?;
        fields = rest;
    }
    Ok(values)
}
