//! Replies with a body that is lent (RFC 9112, section 2.1).
ghost use Rattle.std.specs.Prelude.{◌≡◌, ◌≢◌, length, Some, None, IsTrue};
ghost use Rattle.reply_text.specs.Statuses.{is_status};
ghost use Rattle.reply_text.specs.ReplyHeads.{sent_reply};

use reply_text::{MediaType, Reply};
use std::marker::Model;
use tree_print::LentPrint;

/// A reply whose body is lent. Contracts see it as they see a `Reply`.
#[derive(Drop)]
pub struct LentReply<'a> {
    head: Reply,
    body: LentPrint<'a>,
}

impl<'a> Model for LentReply<'a> {
    ghost use Rattle.reply_text.specs.ReplyHeads.{SentReply};

    ghost Value = { SentReply };

    ghost view = { λ r. record {
      status = r.head.status;
      closes = r.head.closes;
      head = r.head.head;
      body = r.body;
    } };
}

impl<'a> LentReply<'a> {
    /// The reply with this status, this etag, if there is one, and this body. Does not allocate.
    pub fn new(
        status: u16,
        tag: Option<u64>,
        media: MediaType,
        body: LentPrint<'a>,
        close: bool,
    ) -> LentReply<'a>
        requires valid_status { IsTrue (is_status status) }
        requires plain_status { (status ≢ 304) × (status ≢ 405) }
        ensures exact { result ≡ sent_reply
            (record {
              status = status;
              tag = tag;
              read_only = None;
              media = Some media;
              size = length body.entry;
              closes = close;
            })
            body.entry }
    {
        LentReply {
            head: Reply::lent(status, tag, media, body.len(), close),
            body,
        }
    }

    /// Whether the connection ends after the reply. Does not allocate.
    pub fn closes(&self) -> bool
        ensures exact { result ≡ self.now.closes }
    {
        self.head.closes()
    }

    /// The head, up to and including the first empty line. Does not allocate.
    pub fn head(&self) -> &[u8]
        ensures exact { result.now ≡ self.now.head }
    {
        self.head.head()
    }

    /// The body, to be written. Does not allocate.
    pub fn body(&self) -> &LentPrint<'a>
        ensures exact { result.now ≡ self.now.body }
    {
        &self.body
    }
}
