// What the dispatch needs of a target (RFC 4825, section 6).
ghost use Rattle.std.specs.Prelude.{◌≡◌, MatchOption, false, true};
ghost use Rattle.xcap_machine.specs.StandardRequests.{auid_of, home_of, is_namespace_bindings};
ghost use Rattle.xcap_machine.specs.StandardRequests.{is_read_only};
ghost use Rattle.xcap_server.specs.inner.WritableTargets.{target_of};

use doc_names::{Auid, DocId, Home};
use node_select::{End, Selector};
use xcap_uri::Target;

/// A target that isn't read-only.
#[derive(Drop)]
pub(crate) enum WritableTarget {
    Document(DocId),
    Node(DocId, Selector),
    Deep(Auid, Home),
}

fn is_namespace_bindings(end: &End) -> bool
    ensures exact { result ≡ is_namespace_bindings end.now }
{
    match end {
        End::Element | End::Attribute { .. } => false,
        End::Namespaces => true,
    }
}

// Whether the target can only be read.
pub(crate) fn is_read_only(target: &Target) -> bool
    ensures exact { result ≡ is_read_only target.now }
{
    match target {
        Target::Document(_) | Target::Deep(_, _) => false,
        Target::Node(_, selector) => is_namespace_bindings(&selector.end),
        Target::Feed { .. } | Target::ElementFeed { .. } | Target::Flat { .. } => true,
    }
}

// A node as a writable target, unless it is namespace bindings.
fn writable_node(doc: DocId, selector: Selector) -> Option<WritableTarget>
    ensures same_node { MatchOption result (is_namespace_bindings selector.end ≡ true)
        (λ writable. (is_namespace_bindings selector.end ≡ false)
        × (writable ≡ WritableTarget.Node doc selector)) }
{
    if is_namespace_bindings(&selector.end) {
        drop(doc);
        drop(selector);
        return None;
    }
    Some(WritableTarget::Node(doc, selector))
}

// The target as a writable one; None where it can only be read.
pub(crate) fn writable_target(target: Target) -> Option<WritableTarget>
    ensures same_target { MatchOption result (is_read_only target ≡ true)
        (λ writable. (is_read_only target ≡ false) × (target_of writable ≡ target)) }
{
    match target {
        Target::Document(doc) => Some(WritableTarget::Document(doc)),
        Target::Node(doc, selector) => writable_node(doc, selector),
        Target::Deep(auid, home) => Some(WritableTarget::Deep(auid, home)),
        Target::Feed { .. } | Target::ElementFeed { .. } | Target::Flat { .. } => None,
    }
}

pub(crate) fn auid_of(target: &Target) -> Auid
    ensures exact { result ≡ auid_of target.now }
{
    match target {
        Target::Document(doc) | Target::Node(doc, _) => doc.auid,
        Target::Deep(auid, _) => *auid,
        Target::Feed { doc, .. } | Target::ElementFeed { doc, .. } | Target::Flat { doc, .. } => {
            doc.auid
        }
    }
}

pub(crate) fn home_of(target: &Target) -> &Home
    ensures exact { result.now ≡ home_of target.now }
{
    match target {
        Target::Document(doc) | Target::Node(doc, _) => &doc.home,
        Target::Deep(_, home) => home,
        Target::Feed { doc, .. } | Target::ElementFeed { doc, .. } | Target::Flat { doc, .. } => {
            &doc.home
        }
    }
}
