//! A law of requests that were read.
ghost use Rattle.std.specs.Prelude.{◌≡◌, true};
ghost use Rattle.change_records.specs.Records.{IsRecordable, is_writing};
ghost use Rattle.http_serve.specs.ReadRequests.{IsReadRequest};
ghost use Rattle.http_wire.specs.declared.request.Request.{Request};
ghost use Rattle.request_checks.specs.Methods.{method_of};

/// A law: a PUT or DELETE that was read on a connection is within the bounds of a record.
pub fn read_requests_have_records()
    ensures recordable { (request : Request) → IsReadRequest request
        → is_writing (method_of request.method) ≡ true → IsRecordable request }
{}
