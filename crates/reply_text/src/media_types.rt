//! The media types of bodies (RFC 4825, section 15.2; RFC 4826, section 8.2; RFC 5874, section
//! 7.1; RFC 2046, section 4.1).
ghost use Rattle.std.specs.Prelude.{◌≡◌, ◌≤◌, length};
ghost use Rattle.reply_text.specs.MediaTypes.{media_type};

/// The media type of a body.
#[derive(Clone, Copy, PartialEq, Eq)]
pub enum MediaType {
    ResourceLists,
    RlsServices,
    XcapCaps,
    Element,
    Attribute,
    Namespaces,
    Error,
    Diff,
    PlainText,
}

/// The name of a media type, of at most 30 bytes. Does not allocate.
#[tactic(auto, unfolding(crate::specs::MediaTypes::media_type))]
pub fn media_type(media: MediaType) -> &'static str
    ensures expected_word { result.now ≡ media_type media }
    ensures byte_limit { length result.now ≤ 30 }
{
    match media {
        MediaType::ResourceLists => "application/resource-lists+xml",
        MediaType::RlsServices => "application/rls-services+xml",
        MediaType::XcapCaps => "application/xcap-caps+xml",
        MediaType::Element => "application/xcap-el+xml",
        MediaType::Attribute => "application/xcap-att+xml",
        MediaType::Namespaces => "application/xcap-ns+xml",
        MediaType::Error => "application/xcap-error+xml",
        MediaType::Diff => "application/xcap-diff+xml",
        MediaType::PlainText => "text/plain;charset=utf-8",
    }
}
