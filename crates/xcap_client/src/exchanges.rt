// One exchange over a connection of its own.
ghost use Rattle.xcap_client.specs.Requests.{IsLawfulAsk};
ghost use Rattle.xcap_client.specs.Exchanges.{MakesExchange};

use crate::address::address_of;
use crate::{Ask, ClientFault, Response, read_response, write_request};
use std::alloc::Global;
use xcap_io::{Line, Peer};
use xcap_uri::Root;

// Connects to the root's address, writes the request and reads the response to it.
pub fn exchange<C: Peer>(
    alloc: Global,
    peer: &mut C,
    root: &Root,
    ask: &Ask,
) -> Result<Response, ClientFault>
    requires { IsLawfulAsk ask.now }
    ensures one_exchange { MakesExchange root.now ask.now (C.state peer.old) (C.state peer.new)
        result }
{
    let address = address_of(alloc, root)?;
    peer.connect(address.as_str())?;
    write_request(peer, root, ask)?;
    let response = read_response(alloc, peer)?;
    Ok(response)
}
