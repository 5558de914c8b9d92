//! The table of usages (RFC 4825, sections 6.2 and 12; RFC 4826, sections 3.4 and 4.4).
ghost use Rattle.std.specs.Prelude.{◌≡◌};
ghost use Rattle.doc_names.specs.Usages.{auid_text, namespace_of, usage_of};

use crate::doc_id::Auid;

/// A usage whose documents are stored.
#[derive(Clone, Copy, PartialEq, Eq)]
pub enum Usage {
    /// Lists of a user's contacts (RFC 4826, section 3).
    ResourceLists,
    /// Services that represent a list (RFC 4826, section 4).
    RlsServices,
}

impl Auid {
    /// The AUID. Does not allocate.
    pub fn text(self) -> &'static str
        ensures exact { result.now ≡ auid_text self }
    {
        match self {
            Auid::ResourceLists => "resource-lists",
            Auid::RlsServices => "rls-services",
            Auid::XcapCaps => "xcap-caps",
        }
    }

    /// The namespace of its documents, which is the default namespace of a selector's element
    /// names. Does not allocate.
    pub fn namespace(self) -> &'static str
        ensures exact { result.now ≡ namespace_of self }
    {
        match self {
            Auid::ResourceLists => "urn:ietf:params:xml:ns:resource-lists",
            Auid::RlsServices => "urn:ietf:params:xml:ns:rls-services",
            Auid::XcapCaps => "urn:ietf:params:xml:ns:xcap-caps",
        }
    }

    /// The usage with stored documents that has this AUID, if there is one. Does not allocate.
    pub fn stored_usage(self) -> Option<Usage>
        ensures exact { result ≡ usage_of self }
    {
        match self {
            Auid::ResourceLists => Some(Usage::ResourceLists),
            Auid::RlsServices => Some(Usage::RlsServices),
            Auid::XcapCaps => None,
        }
    }
}
