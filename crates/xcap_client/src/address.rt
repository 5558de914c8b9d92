// The address of a root's connections.
ghost use Rattle.std.specs.Prelude.{◌≡◌, IfOk};
ghost use Rattle.xcap_client.specs.ServerAddresses.{has_port, address_of};

use std::alloc::{AllocError, Global};
use xcap_uri::Root;
use xml_names::Text;

// Whether a port comes after the host, which may be an IPv6 literal in brackets.
fn has_port(authority: &[u8]) -> bool
    ensures exact { result ≡ has_port authority.now }
{
    let mut rest = authority;
    'host: while let [front @ .., last] = rest {
        if *last == b':' {
            return true;
        }
        if *last == b']' {
            return false;
        }
        rest = front;
    }
    false
}

// The authority of the root, with the port of HTTP where the root has none.
pub fn address_of(alloc: Global, root: &Root) -> Result<Text, AllocError>
    ensures ok { IfOk result (λ address. address ≡ address_of root.now) }
{
    let mut address = Text::from(alloc, root.authority())?;
    if !has_port(root.authority().as_bytes()) {
        address.push_str(":80")?;
    }
    Ok(address)
}
