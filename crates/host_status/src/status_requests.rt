// Which requests ask for the status.
ghost use Rattle.std.specs.Prelude.{◌≡◌};
ghost use Rattle.host_status.specs.HostSteps.{asks_for_status, is_status_target};

use http_wire::Request;
use request_checks::Method;
use xcap_uri::{Root, rest_under_root};

// Whether the target is `~status` below the root.
#[tactic(auto, unfolding(crate::specs::HostSteps::is_status_target))]
fn is_status_target(root: &Root, target: &[u8]) -> bool
    ensures exact { result ≡ is_status_target root.now target.now }
{
    match rest_under_root(root, target) {
        Some(rest) => rest == b"~status".as_slice(),
        None => false,
    }
}

/// Whether it is a GET or HEAD of `~status` below the root. Does not allocate.
#[tactic(auto, unfolding(crate::specs::HostSteps::asks_for_status))]
pub(crate) fn asks_for_status(root: &Root, request: &Request) -> bool
    ensures exact { result ≡ asks_for_status root.now request.now }
{
    is_status_target(root, request.target.as_slice()) && Method::of(request).reads()
}
