// The requests of the client's calls.
ghost use Rattle.std.specs.Prelude.{◌≡◌, chars, option_map, IfOk};
ghost use Rattle.xcap_client.specs.Requests.{IsLawfulAsk};
ghost use Rattle.xcap_client.specs.Asks.{bodiless_ask, get_ask, delete_ask, put_ask};

use crate::Ask;
use std::alloc::{AllocError, Global};
use xcap_io::Bytes;
use xml_names::Text;

/// A copy of a user's name.
///
/// # Errors
/// `AllocError` when out of memory.
pub fn copy_user(alloc: Global, user: Option<&str>) -> Result<Option<Text>, AllocError>
    ensures ok { IfOk result (λ copy. copy ≡ option_map (λ name. chars name.now) user.entry) }
{
    match user {
        Some(user) => Ok(Some(Text::from(alloc, user)?)),
        None => Ok(None),
    }
}

// A request without a body.
fn bodiless_ask(
    alloc: Global,
    method: &str,
    user: Option<&str>,
    path: &str,
) -> Result<Ask, AllocError>
    ensures ok { IfOk result
        (λ ask. ask
        ≡ bodiless_ask (chars method.now) (option_map (λ name. chars name.now) user.entry)
        (chars path.now)) }
{
    Ok(Ask {
        method: Text::from(alloc, method)?,
        path: Text::from(alloc, path)?,
        user: copy_user(alloc, user)?,
        media: None,
        body: Bytes::new(alloc),
    })
}

pub fn get_ask(alloc: Global, user: Option<&str>, path: &str) -> Result<Ask, AllocError>
    ensures ok { IfOk result
        (λ ask. ask ≡ get_ask (option_map (λ name. chars name.now) user.entry) (chars path.now)) }
    ensures lawful_ask { IfOk result IsLawfulAsk }
{
    bodiless_ask(alloc, "GET", user, path)
}

pub fn delete_ask(alloc: Global, user: Option<&str>, path: &str) -> Result<Ask, AllocError>
    ensures ok { IfOk result
        (λ ask. ask
        ≡ delete_ask (option_map (λ name. chars name.now) user.entry) (chars path.now)) }
    ensures lawful_ask { IfOk result IsLawfulAsk }
{
    bodiless_ask(alloc, "DELETE", user, path)
}

pub fn put_ask(
    alloc: Global,
    user: Option<&str>,
    path: &str,
    media: &str,
    body: &[u8],
) -> Result<Ask, AllocError>
    ensures ok { IfOk result
        (λ ask. ask ≡ put_ask (option_map (λ name. chars name.now) user.entry) (chars path.now)
        (chars media.now) body.now) }
    ensures lawful_ask { IfOk result IsLawfulAsk }
{
    let media = Text::from(alloc, media)?;
    let body = Bytes::from(alloc, body)?;
    let mut ask = bodiless_ask(alloc, "PUT", user, path)?;
    ask.media = Some(media);
    ask.body = body;
    Ok(ask)
}
