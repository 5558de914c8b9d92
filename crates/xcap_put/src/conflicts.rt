//! Replies with an error document (RFC 4825, section 11).
ghost use Rattle.std.specs.Prelude.{◌≡◌, IfOk};
ghost use Rattle.reply_bodies.specs.declared.conflicts.ErrorBody.TheVariants as conflicts;
ghost use Rattle.xcap_machine.specs.Answers.{error_reply};
ghost use Rattle.xcap_machine.specs.DocumentWrites.{clash_field, fault_conflict};

use reply_bodies::{ErrorBody, error_document};
use reply_text::{MediaType, Reply};
use std::alloc::{AllocError, Global};
use usage_docs::{Clash, Fault};
use xml_names::Text;
use xml_tree::print_path;

/// The reply with an error document.
pub(crate) fn conflict_reply(
    alloc: Global,
    body: &ErrorBody,
    closes: bool,
) -> Result<Reply, AllocError>
    ensures ok { IfOk result (λ reply. reply ≡ error_reply body.now closes) }
{
    let document = error_document(alloc, body)?;
    Ok(Reply::with(409, None, Some(MediaType::Error), document, closes))
}

/// The reply to a node without a parent: the URI is the closest ancestor's.
pub(crate) fn no_parent_reply(alloc: Global, uri: Text, closes: bool) -> Result<Reply, AllocError>
    ensures ok { IfOk result (λ reply. reply ≡ error_reply (conflicts.NoParent uri) closes) }
{
    conflict_reply(alloc, &ErrorBody::NoParent(uri), closes)
}

// The place of a clash: the path of the element, `/@` and the key.
fn clash_field(alloc: Global, clash: &Clash) -> Result<Text, AllocError>
    ensures ok { IfOk result (λ field. field ≡ clash_field clash.now) }
{
    let mut field = print_path(alloc, &clash.path)?;
    field.push_str("/@")?;
    field.push_str(clash.key.attribute_name())?;
    Ok(field)
}

/// The error for a tree that is no document of its usage.
pub(crate) fn fault_conflict(alloc: Global, fault: &Fault) -> Result<ErrorBody, AllocError>
    ensures ok { IfOk result (λ body. body ≡ fault_conflict fault.now) }
{
    match fault {
        Fault::Invalid => Ok(ErrorBody::Schema),
        Fault::Unformed => Ok(ErrorBody::Constraint),
        Fault::Repeated(clash) => uniqueness_conflict(alloc, clash),
    }
}

/// The error for a key that is there already.
pub(crate) fn uniqueness_conflict(alloc: Global, clash: &Clash) -> Result<ErrorBody, AllocError>
    ensures ok { IfOk result (λ body. body ≡ conflicts.Unique (clash_field clash.now)) }
{
    let field = clash_field(alloc, clash)?;
    Ok(ErrorBody::Unique(field))
}
