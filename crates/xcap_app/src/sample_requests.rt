// The requests of a sample.
ghost use Rattle.std.specs.Prelude.{◌≡◌, IfOk, codes, string_bytes};
ghost use Rattle.xcap_app.specs.SampleRequests.{round_request, delete_bytes, document_body};
ghost use Rattle.xcap_app.specs.SampleRequests.{document_path, entry_body, entry_path, entry_uri};
ghost use Rattle.xcap_app.specs.SampleRequests.{put_bytes, numbered_request, user_name};

use std::alloc::{AllocError, Global};

// A document with an empty list.
const DOCUMENT: &str =
    "<resource-lists xmlns=\"urn:ietf:params:xml:ns:resource-lists\"><list name=\"l\"/></resource-lists>";

#[tactic(auto, unfolding(crate::specs::SampleRequests::user_name))]
fn user_name(alloc: Global, number: u64) -> Result<String, AllocError>
    ensures ok { IfOk result (λ text. string_bytes text ≡ user_name number) }
{
    format!(in alloc; "sip:u{number}@example.com")
}

#[tactic(auto, unfolding(crate::specs::SampleRequests::document_path))]
fn document_path(alloc: Global, user: &str) -> Result<String, AllocError>
    ensures ok { IfOk result (λ text. string_bytes text ≡ document_path user.now) }
{
    format!(in alloc; "/xcap/resource-lists/users/{user}/index")
}

#[tactic(auto, unfolding(crate::specs::SampleRequests::entry_uri))]
fn entry_uri(alloc: Global, round: u64) -> Result<String, AllocError>
    ensures ok { IfOk result (λ text. string_bytes text ≡ entry_uri round) }
{
    format!(in alloc; "sip:e{round}@example.com")
}

#[tactic(auto, unfolding(crate::specs::SampleRequests::entry_path))]
fn entry_path(alloc: Global, document: &str, uri: &str) -> Result<String, AllocError>
    ensures ok { IfOk result (λ text. string_bytes text ≡ entry_path document.now uri.now) }
{
    format!(in alloc;
        "{document}/~~/resource-lists/list%5B@name=%22l%22%5D/entry%5B@uri=%22{uri}%22%5D"
    )
}

#[tactic(auto, unfolding(crate::specs::SampleRequests::entry_body))]
fn entry_body(alloc: Global, uri: &str) -> Result<String, AllocError>
    ensures ok { IfOk result (λ text. string_bytes text ≡ entry_body uri.now) }
{
    format!(in alloc; "<entry uri=\"{uri}\"/>")
}

// A PUT of a body.
#[tactic(auto, unfolding(crate::specs::SampleRequests::put_bytes))]
fn put_request(
    alloc: Global,
    user: &str,
    path: &str,
    media: &str,
    body: &str,
) -> Result<String, AllocError>
    ensures ok { IfOk result
        (λ text. string_bytes text ≡ put_bytes user.now path.now media.now body.now) }
{
    let length = body.len();
    format!(in alloc;
        "PUT {path} HTTP/1.1\r\nHost: xcap.example.com\r\nX-XCAP-User: {user}\r\nContent-Type: {media}\r\nContent-Length: {length}\r\n\r\n{body}"
    )
}

#[tactic(auto, unfolding(crate::specs::SampleRequests::delete_bytes))]
fn delete_request(alloc: Global, user: &str, path: &str) -> Result<String, AllocError>
    ensures ok { IfOk result (λ text. string_bytes text ≡ delete_bytes user.now path.now) }
{
    format!(in alloc;
        "DELETE {path} HTTP/1.1\r\nHost: xcap.example.com\r\nX-XCAP-User: {user}\r\n\r\n"
    )
}

// The request by which a user puts the document.
#[tactic(auto, unfolding(crate::specs::SampleRequests::document_body))]
fn put_document(alloc: Global, user: &str) -> Result<String, AllocError>
    ensures ok { IfOk result
        (λ text. string_bytes text
        ≡ put_bytes user.now (document_path user.now)
        (codes "application/resource-lists+xml") document_body) }
{
    let path = document_path(alloc, user)?;
    put_request(
        alloc,
        user,
        path.as_str(),
        "application/resource-lists+xml",
        DOCUMENT,
    )
}

// The path of the user's entry with this URI.
fn user_entry_path(alloc: Global, user: &str, uri: &str) -> Result<String, AllocError>
    ensures ok { IfOk result
        (λ text. string_bytes text ≡ entry_path (document_path user.now) uri.now) }
{
    let document = document_path(alloc, user)?;
    entry_path(alloc, document.as_str(), uri)
}

// The request by which a user puts the entry of the round.
fn put_entry(alloc: Global, user: &str, round: u64) -> Result<String, AllocError>
    ensures ok { IfOk result (λ text. string_bytes text
        ≡ put_bytes user.now (entry_path (document_path user.now) (entry_uri round))
        (codes "application/xcap-el+xml") (entry_body (entry_uri round))) }
{
    let uri = entry_uri(alloc, round)?;
    let path = user_entry_path(alloc, user, uri.as_str())?;
    let body = entry_body(alloc, uri.as_str())?;
    put_request(
        alloc,
        user,
        path.as_str(),
        "application/xcap-el+xml",
        body.as_str(),
    )
}

// The request by which a user deletes the entry of the round.
fn delete_entry(alloc: Global, user: &str, round: u64) -> Result<String, AllocError>
    ensures ok { IfOk result
        (λ text. string_bytes text
        ≡ delete_bytes user.now (entry_path (document_path user.now) (entry_uri round))) }
{
    let uri = entry_uri(alloc, round)?;
    let path = user_entry_path(alloc, user, uri.as_str())?;
    delete_request(alloc, user, path.as_str())
}

// A user's request of the round.
fn request_in_round(alloc: Global, user: &str, round: u64) -> Result<String, AllocError>
    ensures ok { IfOk result (λ text. string_bytes text ≡ round_request user.now round) }
{
    if round == 0 {
        return put_document(alloc, user);
    }
    if round % 3 == 0 {
        return delete_entry(alloc, user, round - 1);
    }
    put_entry(alloc, user, round)
}

// The request with this number.
pub(crate) fn request_with_number(alloc: Global, number: u64) -> Result<String, AllocError>
    ensures ok { IfOk result (λ text. string_bytes text ≡ numbered_request number) }
{
    let user = user_name(alloc, number % 100)?;
    request_in_round(alloc, user.as_str(), number / 100)
}
