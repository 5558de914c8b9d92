//! Methods of requests (RFC 9110, section 9.3).
ghost use Rattle.std.specs.Prelude.{◌≡◌};
ghost use Rattle.request_checks.specs.Methods.{method_of, is_reading, is_known};

use http_wire::Request;

/// The method of a request (RFC 9110, section 9.3).
#[derive(Clone, Copy, PartialEq, Eq)]
pub enum Method {
    Get,
    Head,
    Put,
    Delete,
    /// Any other method, which this server doesn't support.
    Other,
}

impl Method {
    /// The method of a request. Does not allocate.
    #[tactic(auto, unfolding(crate::specs::Methods::method_of))]
    pub fn of(request: &Request) -> Method
        ensures reads_rule { result ≡ method_of request.now.method }
    {
        let name = &request.method;
        if name.is("GET") {
            return Method::Get;
        }
        if name.is("HEAD") {
            return Method::Head;
        }
        if name.is("PUT") {
            return Method::Put;
        }
        if name.is("DELETE") {
            return Method::Delete;
        }
        Method::Other
    }

    /// Whether it only reads: a safe method (RFC 9110, section 9.2.1).
    pub fn reads(self) -> bool
        ensures exact { result ≡ is_reading self }
    {
        matches!(self, Method::Get | Method::Head)
    }

    /// Whether it is one of the four that this server supports.
    pub fn is_known(self) -> bool
        ensures exact { result ≡ is_known self }
    {
        !matches!(self, Method::Other)
    }
}
