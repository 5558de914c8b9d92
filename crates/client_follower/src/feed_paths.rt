// The paths that a follower requests, under the root.
ghost use Rattle.std.specs.Prelude.{◌≡◌, IfOk, chars, option_map};
ghost use Rattle.doc_names.specs.PercentEscapes.{escape_part};
ghost use Rattle.client_follower.specs.FeedPaths.{feed_path};

use doc_names::{DocId, print_doc_id, push_escaped_part};
use std::alloc::{AllocError, Global};
use xml_names::Text;

// An etag as a part of an address.
fn escape_tag(alloc: Global, tag: &Text) -> Result<Text, AllocError>
    ensures ok { IfOk result (λ part. part ≡ escape_part tag.now) }
{
    let mut part = String::new(alloc);
    push_escaped_part(&mut part, tag)?;
    Ok(Text::own(part))
}

// The path of the feed of all changes of a document since one of its versions.
pub(crate) fn feed_path(alloc: Global, tag: &Text, doc: &DocId) -> Result<Text, AllocError>
    ensures ok { IfOk result (λ path. path ≡ feed_path tag.now doc.now) }
{
    let part = escape_tag(alloc, tag)?;
    let id = print_doc_id(alloc, doc)?;
    let mut path = Text::from(alloc, "~feed/aggregate/")?;
    path.push_str(part.as_str())?;
    path.push('/')?;
    path.push_str(id.as_str())?;
    Ok(path)
}

/// A user's name, as the client's calls take it. Does not allocate.
pub fn user_as_str(user: &Option<Text>) -> Option<&str>
    ensures exact { option_map (λ name. chars name.now) result ≡ user.now }
{
    match user {
        Some(user) => Some(user.as_str()),
        None => None,
    }
}
