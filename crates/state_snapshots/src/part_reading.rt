// Reads the parts of a snapshot.
ghost use Rattle.std.specs.Prelude.{◌≡◌, ◌≤◌, Some, None, IfOk, IsErrOf, length, take};
ghost use Rattle.std.specs.Prelude.{option_map, true, false};
ghost use Rattle.std.specs.Str.{chars, is_utf8};
ghost use Rattle.std.specs.Int.{w64, from_be_bytes};
ghost use Rattle.state_snapshots.specs.Readings.{auid_at, document_of, home_at, home_of_kind};
ghost use Rattle.state_snapshots.specs.Readings.{id_after, id_at, number_at, start_after};
ghost use Rattle.state_snapshots.specs.Readings.{start_of_bytes, text_at};
ghost use Rattle.state_snapshots.specs.declared.parts.PartFault.{PartFault};
ghost use Rattle.state_snapshots.specs.PartViews.{start_view};

use crate::FORM_VERSION;
use crate::parts::{DocumentPart, PartFault, Start};
use byte_blocks::block_at;
use doc_names::{Auid, DocId, Home};
use std::alloc::Global;
use xml_names::Text;

fn u64_of(bytes: &[u8]) -> u64
    requires { 8 ≤ length bytes.now }
    ensures exact { result ≡ from_be_bytes w64 (take 8 bytes.now) }
{
    u64::from_be_bytes([
        bytes[0], bytes[1], bytes[2], bytes[3], bytes[4], bytes[5], bytes[6], bytes[7],
    ])
}

#[tactic(auto, unfolding(crate::specs::Readings::number_at))]
fn number_at(bytes: &[u8]) -> Option<(u64, &[u8])>
    ensures exact { option_map (λ x. (x.0, x.1.now)) result ≡ number_at bytes.now }
{
    if bytes.len() < 8 {
        return None;
    }
    Some((u64_of(bytes), &bytes[8..]))
}

fn start_after(bytes: &[u8]) -> Option<Start<'_>>
    ensures exact { option_map start_view result ≡ start_after bytes.now }
{
    let (count, bytes) = number_at(bytes)?;
    let (next, root) = number_at(bytes)?;
    Some(Start { count, next, root })
}

/// The start of a snapshot, if the part is one of this version of the form. Does not allocate.
pub fn read_start(part: &[u8]) -> Option<Start<'_>>
    ensures exact { option_map start_view result ≡ start_of_bytes part.now }
{
    match part {
        [] => None,
        [version, rest @ ..] => {
            if *version == FORM_VERSION {
                start_after(rest)
            } else {
                None
            }
        }
    }
}

// The text of these bytes.
#[tactic(auto, using(crate::proofs::Texts::is_text, crate::proofs::Texts::is_no_text))]
fn text_of(alloc: Global, bytes: &[u8]) -> Result<Text, PartFault>
    ensures exact { IfOk result (λ text. (is_utf8 bytes.now ≡ true) × (text ≡ chars bytes.now)) }
    ensures damaged { IsErrOf result PartFault.Damaged → is_utf8 bytes.now ≡ false }
{
    match str::from_utf8(bytes) {
        Ok(text) => Ok(Text::from(alloc, text)?),
        Err(_) => Err(PartFault::Damaged),
    }
}

#[tactic(auto, unfolding(crate::specs::Readings::text_at))]
fn read_text(alloc: Global, bytes: &[u8]) -> Result<(Text, &[u8]), PartFault>
    ensures exact { IfOk result (λ x. text_at bytes.now ≡ Some (x.0, x.1.now)) }
    ensures damaged { IsErrOf result PartFault.Damaged → text_at bytes.now ≡ None }
{
    match block_at(bytes) {
        None => Err(PartFault::Damaged),
        Some((text, rest)) => Ok((text_of(alloc, text)?, rest)),
    }
}

fn auid_at(number: u8) -> Option<Auid>
    ensures exact { result ≡ auid_at number }
{
    match number {
        1 => Some(Auid::ResourceLists),
        2 => Some(Auid::RlsServices),
        3 => Some(Auid::XcapCaps),
        _ => None,
    }
}

fn read_user(alloc: Global, bytes: &[u8]) -> Result<(Home, &[u8]), PartFault>
    ensures exact { IfOk result (λ x. home_of_kind 1 bytes.now ≡ Some (x.0, x.1.now)) }
    ensures damaged { IsErrOf result PartFault.Damaged → home_of_kind 1 bytes.now ≡ None }
{
    let (xui, rest) = read_text(alloc, bytes)?;
    Ok((Home::User(xui), rest))
}

fn read_home_of_kind(alloc: Global, kind: u8, bytes: &[u8]) -> Result<(Home, &[u8]), PartFault>
    ensures exact { IfOk result (λ x. home_of_kind kind bytes.now ≡ Some (x.0, x.1.now)) }
    ensures damaged { IsErrOf result PartFault.Damaged → home_of_kind kind bytes.now ≡ None }
{
    match kind {
        0 => Ok((Home::Global, bytes)),
        1 => read_user(alloc, bytes),
        _ => Err(PartFault::Damaged),
    }
}

fn read_home(alloc: Global, bytes: &[u8]) -> Result<(Home, &[u8]), PartFault>
    ensures exact { IfOk result (λ x. home_at bytes.now ≡ Some (x.0, x.1.now)) }
    ensures damaged { IsErrOf result PartFault.Damaged → home_at bytes.now ≡ None }
{
    match bytes {
        [] => Err(PartFault::Damaged),
        [kind, rest @ ..] => read_home_of_kind(alloc, *kind, rest),
    }
}

// The name of a document of this usage, and the bytes after it.
fn read_id_after(alloc: Global, auid: Auid, bytes: &[u8]) -> Result<(DocId, &[u8]), PartFault>
    ensures exact { IfOk result (λ x. id_after auid bytes.now ≡ Some (x.0, x.1.now)) }
    ensures damaged { IsErrOf result PartFault.Damaged → id_after auid bytes.now ≡ None }
{
    let (home, rest) = read_home(alloc, bytes)?;
    let (name, rest) = read_text(alloc, rest)?;
    Ok((DocId { auid, home, name }, rest))
}

fn read_id(alloc: Global, bytes: &[u8]) -> Result<(DocId, &[u8]), PartFault>
    ensures exact { IfOk result (λ x. id_at bytes.now ≡ Some (x.0, x.1.now)) }
    ensures damaged { IsErrOf result PartFault.Damaged → id_at bytes.now ≡ None }
{
    match bytes {
        [] => Err(PartFault::Damaged),
        [number, rest @ ..] => match auid_at(*number) {
            None => Err(PartFault::Damaged),
            Some(auid) => read_id_after(alloc, auid, rest),
        },
    }
}

/// The document of a part, with its etag and its text.
///
/// # Errors
/// `Damaged` where the bytes are no such part; `NoMemory` when out of memory.
pub fn read_document_part(alloc: Global, part: &[u8]) -> Result<DocumentPart<'_>, PartFault>
    ensures exact { IfOk result (λ read. document_of part.now
        ≡ Some (record { id = read.id; tag = read.tag; text = read.text.now })) }
    ensures damaged { IsErrOf result PartFault.Damaged → document_of part.now ≡ None }
{
    match number_at(part) {
        None => Err(PartFault::Damaged),
        Some((tag, rest)) => {
            let (id, text) = read_id(alloc, rest)?;
            Ok(DocumentPart { id, tag, text })
        }
    }
}
