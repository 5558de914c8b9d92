// The user who asks, and the root.
ghost use Rattle.std.specs.Prelude.{◌≡◌, chars, option_map};

use client_follower::user_as_str;
use xcap_uri::Root;
use xml_names::Text;

/// The user who asks a server, if one is named, and the root of the server.
#[derive(Drop)]
pub struct Requester {
    pub user: Option<Text>,
    pub root: Root,
}

impl Requester {
    // The user, as the client's calls take it.
    pub(crate) fn user(&self) -> Option<&str>
        ensures exact { option_map (λ name. chars name.now) result ≡ self.now.user }
    {
        user_as_str(&self.user)
    }
}
