//! Replies (RFC 9112).
ghost use Rattle.std.specs.Prelude.{◌≡◌, ◌≢◌, [], length, None, Some, IsTrue};
ghost use Rattle.reply_text.specs.Statuses.{is_status};
ghost use Rattle.reply_text.specs.ReplyHeads.{head_of, plain_reply, sent_reply};

use crate::head_buffer::HeadBuffer;
use crate::media_types::MediaType;
use std::marker::Model;
use xcap_io::Bytes;

/// A reply. Contracts see its status, whether it closes the connection, and its bytes: the head
/// with its empty line, and the body.
#[derive(Drop)]
pub struct Reply {
    status: u16,
    closes: bool,
    head: HeadBuffer,
    body: Option<Bytes>,
}

impl Model for Reply {
    ghost use Rattle.std.specs.Prelude.{[], unwrap_or};
    ghost use Rattle.reply_text.specs.ReplyHeads.{SentReply};

    ghost Value = { SentReply };

    ghost view = { λ r. record {
      status = r.status;
      closes = r.closes;
      head = r.head;
      body = unwrap_or r.body [];
    } };
}

// The head made of these parts.
fn head(
    status: u16,
    tag: Option<u64>,
    read_only: Option<bool>,
    media: Option<MediaType>,
    size: usize,
    closes: bool,
) -> HeadBuffer
    requires { IsTrue (is_status status) }
    ensures exact { result ≡ head_of
        (record {
          status = status;
          tag = tag;
          read_only = read_only;
          media = media;
          size = size;
          closes = closes;
        }) }
{
    let mut head = HeadBuffer::new();
    head.push_status(status);
    head.push_etag(tag);
    head.push_allow(read_only);
    head.push_media(media);
    head.push_length(status, size);
    head.push_close(closes);
    head.push_empty_line();
    head
}

impl Reply {
    /// A reply without etag and body. Does not allocate.
    pub fn fixed(status: u16, close: bool) -> Reply
        requires valid_status { IsTrue (is_status status) }
        requires plain_status { (status ≢ 304) × (status ≢ 405) × (status ≢ 409) }
        ensures exact { result ≡ plain_reply status close }
    {
        Reply {
            status,
            closes: close,
            head: head(status, None, None, None, 0, close),
            body: None,
        }
    }

    /// The 405, with the methods of a resource that is read-only or of any other. Does not
    /// allocate.
    pub fn method(read_only: bool, close: bool) -> Reply
        ensures exact { result ≡ sent_reply
            (record {
              status = 405;
              tag = None;
              read_only = Some read_only;
              media = None;
              size = 0;
              closes = close;
            })
            [] }
    {
        Reply {
            status: 405,
            closes: close,
            head: head(405, None, Some(read_only), None, 0, close),
            body: None,
        }
    }

    /// A reply with an etag, a media type and a body. Does not allocate.
    pub fn with(
        status: u16,
        tag: Option<u64>,
        media: Option<MediaType>,
        body: Bytes,
        close: bool,
    ) -> Reply
        requires valid_status { IsTrue (is_status status) }
        requires plain_status { status ≢ 405 }
        requires no_body { status ≡ 304 → body ≡ [] }
        ensures exact { result ≡ sent_reply
            (record {
              status = status;
              tag = tag;
              read_only = None;
              media = media;
              size = length body;
              closes = close;
            })
            body }
    {
        Reply {
            status,
            closes: close,
            head: head(status, tag, None, media, body.len(), close),
            body: Some(body),
        }
    }

    /// The head of a reply whose body, of `size` bytes, is written from elsewhere. Does not
    /// allocate.
    pub fn lent(status: u16, tag: Option<u64>, media: MediaType, size: usize, close: bool) -> Reply
        requires valid_status { IsTrue (is_status status) }
        requires plain_status { (status ≢ 304) × (status ≢ 405) }
        ensures exact { result ≡ sent_reply
            (record {
              status = status;
              tag = tag;
              read_only = None;
              media = Some media;
              size = size;
              closes = close;
            })
            [] }
    {
        Reply {
            status,
            closes: close,
            head: head(status, tag, None, Some(media), size, close),
            body: None,
        }
    }

    /// The reply without its body, as for HEAD (RFC 9110, section 9.3.2). Does not allocate.
    pub fn head_only(mut self) -> Reply
        ensures exact { result ≡ record self { body = [] } }
    {
        self.body = None;
        self
    }

    /// The status. Does not allocate.
    pub fn status(&self) -> u16
        ensures ok { result ≡ self.now.status }
    {
        self.status
    }

    /// Whether the connection ends after the reply. Does not allocate.
    pub fn closes(&self) -> bool
        ensures exact { result ≡ self.now.closes }
    {
        self.closes
    }

    /// The head, up to and including the first empty line. Does not allocate.
    pub fn head(&self) -> &[u8]
        ensures exact { result.now ≡ self.now.head }
    {
        self.head.as_slice()
    }

    /// The body. Does not allocate.
    pub fn body(&self) -> &[u8]
        ensures exact { result.now ≡ self.now.body }
    {
        match &self.body {
            Some(body) => body.as_slice(),
            None => &[],
        }
    }
}
