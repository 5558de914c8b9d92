//! The media type of a request's body (RFC 9110, sections 8.3 and 8.4).
ghost use Rattle.std.specs.Prelude.{◌≡◌, ◌==◌, codes};
ghost use Rattle.std.specs.List.{before_first, position};
ghost use Rattle.httparse.specs.Grammar.{trim_ows};
ghost use Rattle.request_checks.specs.MediaTypes.{document_media_type, essence, is_single_type};
ghost use Rattle.request_checks.specs.MediaTypes.{has_media_type};
ghost use Rattle.request_checks.specs.Rights.{fields_named};

use crate::field_values::{all_values_are, single_value};
use doc_names::Auid;
use http_wire::{Field, Request, is_same_ignoring_case, trim_end, trim_start};
use reply_text::{MediaType, media_type};

/// Whether the body of a request has this media type: there is exactly one `Content-Type`, which
/// is this type, whatever its parameters, and every `Content-Encoding` is `identity`. Does not
/// allocate.
#[tactic(auto, unfolding(crate::specs::MediaTypes::has_media_type))]
pub fn has_media_type(request: &Request, media: MediaType) -> bool
    ensures exact { result ≡ has_media_type media request.now.fields }
{
    let fields = request.fields.as_slice();
    if !all_values_are(fields, b"content-encoding", b"identity") {
        return false;
    }
    has_content_type(fields, media_type(media).as_bytes())
}

#[tactic(auto, using(crate::proofs::Onlys::type_one, crate::proofs::Onlys::type_other))]
fn has_content_type(fields: &[Field], wanted: &[u8]) -> bool
    ensures exact { result
        ≡ is_single_type wanted.now (fields_named (codes "content-type") fields.now) }
{
    match single_value(fields, b"content-type") {
        Some(value) => is_same_ignoring_case(essence(value), wanted),
        None => false,
    }
}

#[tactic(auto, using(crate::proofs::Onlys::essence_is))]
fn essence(value: &[u8]) -> &[u8]
    ensures exact { result.now ≡ essence value.now }
{
    trim_blanks(before_semicolon(value))
}

fn semicolon_index(value: &[u8]) -> Option<usize>
    ensures exact { result ≡ position (λ b. b == 59) value.now }
{
    value.iter().position(|b| *b == b';')
}

#[tactic(auto, using(crate::proofs::Onlys::before_some, crate::proofs::Onlys::before_none))]
fn before_semicolon(value: &[u8]) -> &[u8]
    ensures exact { result.now ≡ before_first (λ b. b == 59) value.now }
{
    match semicolon_index(value) {
        Some(len) => &value[..len],
        None => value,
    }
}

#[tactic(auto, unfolding(httparse::specs::Grammar::trim_ows))]
fn trim_blanks(bytes: &[u8]) -> &[u8]
    ensures trims_ends { result.now ≡ trim_ows bytes.now }
{
    trim_end(trim_start(bytes))
}

/// The media type of the documents of an application usage. Does not allocate.
pub fn document_media_type(auid: Auid) -> MediaType
    ensures exact { result ≡ document_media_type auid }
{
    match auid {
        Auid::ResourceLists => MediaType::ResourceLists,
        Auid::RlsServices => MediaType::RlsServices,
        Auid::XcapCaps => MediaType::XcapCaps,
    }
}
