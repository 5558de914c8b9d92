//! The head of a reply, written into a fixed buffer (RFC 9112, sections 4 and 5).
ghost use Rattle.std.specs.Prelude.{◌≡◌, ◌≤◌, ◌+◌, [], ◌++◌, length, decimal, IsTrue};
ghost use Rattle.std.specs.Prelude.{◌==◌, if◌then◌else◌};
ghost use Rattle.std.specs.Option.{option_map_or};
ghost use Rattle.reply_text.specs.Statuses.{is_status};
ghost use Rattle.reply_text.specs.ReplyHeads.{status_line, etag_line, allow_line, media_line};
ghost use Rattle.reply_text.specs.ReplyHeads.{length_line, close_line, line_end};

use crate::media_types::{MediaType, media_type};
use crate::statuses::reason;
use itoa::Buffer;
use std::marker::Model;

// The capacity in bytes; a head has at most 299.
const ROOM: usize = 384;

/// The bytes of a head.
#[derive(Drop)]
pub(crate) struct HeadBuffer {
    bytes: [u8; 384],
    len: usize,
}

impl Model for HeadBuffer {
    ghost use Rattle.std.specs.Prelude.{ℕ, ◌≤◌, List, take};

    ghost Value = { List ℕ };

    ghost view = { λ h. take h.len h.bytes };

    ghost invariant = { λ h. h.len ≤ 384 };
}

impl HeadBuffer {
    /// An empty buffer.
    pub(crate) fn new() -> HeadBuffer
        ensures holds_no_bytes { result ≡ [] }
    {
        HeadBuffer {
            bytes: [0; ROOM],
            len: 0,
        }
    }

    /// The bytes.
    pub(crate) fn as_slice(&self) -> &[u8]
        ensures exact { result.now ≡ self.now }
    {
        &self.bytes[..self.len]
    }

    // Appends bytes.
    fn push(&mut self, piece: &[u8])
        requires { length self.old + length piece.now ≤ 384 }
        ensures adds_bytes { self.new ≡ self.old ++ piece.now }
    {
        let end = self.len + piece.len();
        self.bytes[self.len..end].copy_from_slice(piece);
        self.len = end;
    }

    // Appends a number in decimal digits.
    fn push_number(&mut self, number: u64)
        requires { length self.old ≤ 344 }
        ensures appends_bytes { self.new ≡ self.old ++ decimal number }
        ensures byte_limit { length self.new ≤ length self.old + 40 }
    {
        let mut buffer = Buffer::new();
        self.push(buffer.format(number).as_bytes());
    }

    /// Appends the status line.
    #[tactic(auto, unfolding(crate::specs::ReplyHeads::status_line))]
    pub(crate) fn push_status(&mut self, status: u16)
        requires valid_status { IsTrue (is_status status) }
        requires room_left { length self.old ≤ 300 }
        ensures appends_bytes { self.new ≡ self.old ++ status_line status }
        ensures byte_limit { length self.new ≤ length self.old + 74 }
    {
        self.push(b"HTTP/1.1 ");
        self.push_number(u64::from(status));
        self.push(b" ");
        self.push(reason(status).as_bytes());
        self.push(b"\r\n");
    }

    // Appends the ETag field of a document (RFC 9110, section 8.8.3).
    #[tactic(auto, unfolding(crate::specs::ReplyHeads::etag_line))]
    fn push_etag_line(&mut self, tag: u64)
        requires { length self.old ≤ 300 }
        ensures appends_bytes { self.new ≡ self.old ++ etag_line tag }
        ensures byte_limit { length self.new ≤ length self.old + 50 }
    {
        self.push(b"ETag: \"");
        self.push_number(tag);
        self.push(b"\"\r\n");
    }

    /// Appends the ETag field, if there is an etag.
    pub(crate) fn push_etag(&mut self, tag: Option<u64>)
        requires { length self.old ≤ 300 }
        ensures appends_bytes { self.new ≡ self.old ++ option_map_or etag_line tag [] }
        ensures byte_limit { length self.new ≤ length self.old + 50 }
    {
        if let Some(tag) = tag {
            self.push_etag_line(tag);
        }
    }

    // Appends the Allow field (RFC 9110, section 10.2.1).
    #[tactic(auto, unfolding(crate::specs::ReplyHeads::allow_line))]
    fn push_allow_line(&mut self, read_only: bool)
        requires { length self.old ≤ 340 }
        ensures appends_bytes { self.new ≡ self.old ++ allow_line read_only }
        ensures byte_limit { length self.new ≤ length self.old + 31 }
    {
        if read_only {
            self.push(b"Allow: GET, HEAD\r\n");
        } else {
            self.push(b"Allow: GET, HEAD, PUT, DELETE\r\n");
        }
    }

    /// Appends the Allow field, if it applies.
    pub(crate) fn push_allow(&mut self, read_only: Option<bool>)
        requires { length self.old ≤ 340 }
        ensures appends_bytes { self.new ≡ self.old ++ option_map_or allow_line read_only [] }
        ensures byte_limit { length self.new ≤ length self.old + 31 }
    {
        if let Some(read_only) = read_only {
            self.push_allow_line(read_only);
        }
    }

    // Appends the Content-Type field (RFC 9110, section 8.3).
    #[tactic(auto, unfolding(crate::specs::ReplyHeads::media_line))]
    fn push_content_type(&mut self, media: MediaType)
        requires { length self.old ≤ 330 }
        ensures appends_bytes { self.new ≡ self.old ++ media_line media }
        ensures byte_limit { length self.new ≤ length self.old + 46 }
    {
        self.push(b"Content-Type: ");
        self.push(media_type(media).as_bytes());
        self.push(b"\r\n");
    }

    /// Appends the Content-Type field, if there is a media type.
    pub(crate) fn push_media(&mut self, media: Option<MediaType>)
        requires { length self.old ≤ 330 }
        ensures appends_bytes { self.new ≡ self.old ++ option_map_or media_line media [] }
        ensures byte_limit { length self.new ≤ length self.old + 46 }
    {
        if let Some(media) = media {
            self.push_content_type(media);
        }
    }

    // Appends the Content-Length field (RFC 9112, section 6.2).
    #[tactic(auto, unfolding(crate::specs::ReplyHeads::length_line))]
    fn push_length_line(&mut self, size: usize)
        requires { length self.old ≤ 320 }
        ensures appends_bytes { self.new ≡ self.old ++ length_line size }
        ensures byte_limit { length self.new ≤ length self.old + 58 }
    {
        self.push(b"Content-Length: ");
        self.push_number(size as u64);
        self.push(b"\r\n");
    }

    /// Appends the Content-Length field, unless the status is 304.
    pub(crate) fn push_length(&mut self, status: u16, size: usize)
        requires { length self.old ≤ 320 }
        ensures appends_bytes { self.new
            ≡ self.old ++ (if status == 304 then [] else length_line size) }
        ensures byte_limit { length self.new ≤ length self.old + 58 }
    {
        if status != 304 {
            self.push_length_line(size);
        }
    }

    /// Appends `Connection: close`, if the connection is to end (RFC 9112, section 9.6).
    #[tactic(auto, unfolding(crate::specs::ReplyHeads::close_line))]
    pub(crate) fn push_close(&mut self, closes: bool)
        requires { length self.old ≤ 360 }
        ensures appends_bytes { self.new ≡ self.old ++ (if closes then close_line else []) }
        ensures byte_limit { length self.new ≤ length self.old + 19 }
    {
        if closes {
            self.push(b"Connection: close\r\n");
        }
    }

    /// Appends the empty line.
    pub(crate) fn push_empty_line(&mut self)
        requires { length self.old ≤ 380 }
        ensures exact { self.new ≡ self.old ++ line_end }
    {
        self.push(b"\r\n");
    }
}
