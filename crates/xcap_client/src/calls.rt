// The calls that fetch, put and remove a resource at a path under the root (RFC 4825, section 7).
ghost use Rattle.std.specs.Prelude.{◌≡◌, chars, option_map};
ghost use Rattle.xcap_client.specs.Requests.{IsLawfulAsk};
ghost use Rattle.xcap_client.specs.Asks.{get_ask, delete_ask, put_ask};
ghost use Rattle.xcap_client.specs.Calls.{MakesCall, JudgesResponse, is_success};

use crate::asks::{delete_ask, get_ask, put_ask};
use crate::error_documents::error_name_of;
use crate::exchanges::exchange;
use crate::{Ask, ClientFault, Response};
use std::alloc::Global;
use xcap_io::{Line, Peer};
use xcap_uri::Root;

fn is_success(status: u16) -> bool
    ensures exact { result ≡ is_success status }
{
    status >= 200 && status <= 299
}

// A successful response as it came; `Refused` for any other.
fn judge_response(alloc: Global, response: Response) -> Result<Response, ClientFault>
    ensures judged_by_status { JudgesResponse response result }
{
    if is_success(response.status) {
        return Ok(response);
    }
    let name = error_name_of(alloc, response.body.as_slice())?;
    Err(ClientFault::Refused(response.status, name))
}

fn make_call<C: Peer>(
    alloc: Global,
    peer: &mut C,
    root: &Root,
    ask: &Ask,
) -> Result<Response, ClientFault>
    requires { IsLawfulAsk ask.now }
    ensures one_exchange_judged { MakesCall root.now ask.now (C.state peer.old)
        (C.state peer.new) result }
{
    let response = exchange(alloc, peer, root, ask)?;
    judge_response(alloc, response)
}

/// Fetches the resource at the path. The response has a status of 2xx.
///
/// # Errors
/// The first of these that applies: `PeerFault` where the peer failed, whose count of such faults
/// rose; `BadResponse` where the bytes that came are no response; `Refused` where its status is no
/// 2xx. `NoMemory` when out of memory.
pub fn fetch<C: Peer>(
    alloc: Global,
    peer: &mut C,
    root: &Root,
    user: Option<&str>,
    path: &str,
) -> Result<Response, ClientFault>
    ensures calls_get { MakesCall root.now
        (get_ask (option_map (λ name. chars name.now) user.entry) (chars path.now))
        (C.state peer.old) (C.state peer.new) result }
{
    let ask = get_ask(alloc, user, path)?;
    make_call(alloc, peer, root, &ask)
}

/// Puts a resource at the path. The response has a status of 2xx.
///
/// # Errors
/// As for `fetch`.
pub fn put<C: Peer>(
    alloc: Global,
    peer: &mut C,
    root: &Root,
    user: Option<&str>,
    path: &str,
    media: &str,
    body: &[u8],
) -> Result<Response, ClientFault>
    ensures calls_put { MakesCall root.now
        (put_ask (option_map (λ name. chars name.now) user.entry) (chars path.now)
        (chars media.now) body.now) (C.state peer.old) (C.state peer.new) result }
{
    let ask = put_ask(alloc, user, path, media, body)?;
    make_call(alloc, peer, root, &ask)
}

/// Removes the resource at the path. The response has a status of 2xx.
///
/// # Errors
/// As for `fetch`.
pub fn remove<C: Peer>(
    alloc: Global,
    peer: &mut C,
    root: &Root,
    user: Option<&str>,
    path: &str,
) -> Result<Response, ClientFault>
    ensures calls_delete { MakesCall root.now
        (delete_ask (option_map (λ name. chars name.now) user.entry) (chars path.now))
        (C.state peer.old) (C.state peer.new) result }
{
    let ask = delete_ask(alloc, user, path)?;
    make_call(alloc, peer, root, &ask)
}
