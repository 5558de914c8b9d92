//! Who may do what (RFC 4825, section 5.7).
ghost use Rattle.std.specs.Prelude.{◌≡◌};
ghost use Rattle.request_checks.specs.Rights.{is_allowed, is_fixed_usage, is_from_user};

use crate::field_values::single_value;
use doc_names::{Auid, Home};
use http_wire::{Field, Request};
use xml_names::Text;

/// Whether a request that writes, or only reads, is allowed for a document of this application
/// usage in this home. Does not allocate.
///
/// Global documents are read by everyone and written by nobody. A user's documents are read and
/// written by that user, whom exactly one `X-XCAP-User` field has to name; nobody writes
/// `xcap-caps`.
pub fn is_allowed(writes: bool, auid: Auid, home: &Home, request: &Request) -> bool
    ensures exact { result ≡ is_allowed writes auid home.now request.now.fields }
{
    match home {
        Home::Global => !writes,
        Home::User(xui) => {
            if writes && is_fixed_usage(auid) {
                return false;
            }
            is_from_user(xui, request.fields.as_slice())
        }
    }
}

fn is_fixed_usage(auid: Auid) -> bool
    ensures exact { result ≡ is_fixed_usage auid }
{
    matches!(auid, Auid::XcapCaps)
}

#[tactic(auto, unfolding(crate::specs::Rights::is_from_user), using(crate::proofs::Onlys::only_one, crate::proofs::Onlys::only_other))]
fn is_from_user(xui: &Text, fields: &[Field]) -> bool
    ensures exact { result ≡ is_from_user xui.now fields.now }
{
    match single_value(fields, b"x-xcap-user") {
        Some(user) => user == xui.as_str().as_bytes(),
        None => false,
    }
}
