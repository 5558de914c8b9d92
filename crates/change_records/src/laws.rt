//! Laws of records.
ghost use Rattle.std.specs.Prelude.{◌≡◌, ℕ, ◌≤◌, List, Some, None, All, codes, length, true};
ghost use Rattle.http_wire.specs.Fields.{same_ignoring_case};
ghost use Rattle.http_wire.specs.declared.request.Field.{Field as TheField};
ghost use Rattle.http_wire.specs.declared.request.Request.{Request as TheRequest};
ghost use Rattle.byte_blocks.specs.Blocks.{AreBytes};
ghost use Rattle.change_log.specs.declared.limits.TheConstants.{MAX_CONTENT_BYTES};
ghost use Rattle.request_checks.specs.Rights.{fields_named};
ghost use Rattle.change_records.specs.ReadFields.{name_of, read_field_of};
ghost use Rattle.change_records.specs.Readings.{request_of};
ghost use Rattle.change_records.specs.Records.{IsRecordable, change_record, kept_request};
ghost use Rattle.change_records.specs.declared.read_fields.ReadField.{ReadField as Known};

/// A law: a record is read back as the request with the fields that are kept; and only the record
/// of a request is read as one.
pub fn records_have_one_form()
    ensures read_back { (request : TheRequest) → IsRecordable request
        → request_of (change_record request) ≡ Some (kept_request request) }
    ensures one_form { (bytes : List ℕ) (request : TheRequest) → AreBytes bytes
        → request_of bytes ≡ Some request → bytes ≡ change_record request }
    ensures as_recorded { (bytes : List ℕ) (request : TheRequest) → AreBytes bytes
        → request_of bytes ≡ Some request → kept_request request ≡ request }
    ensures recordable { (bytes : List ℕ) (request : TheRequest) → AreBytes bytes
        → length bytes ≤ MAX_CONTENT_BYTES → request_of bytes ≡ Some request
        → IsRecordable request }
{}

/// A law: a request as its record gives it has the same record, and is given again.
pub fn recorded_requests_are_recorded_again()
    ensures same_record { (request : TheRequest)
        → change_record (kept_request request) ≡ change_record request }
    ensures given_again { (request : TheRequest)
        → kept_request (kept_request request) ≡ kept_request request }
    ensures still_recordable { (request : TheRequest) → IsRecordable request
        → IsRecordable (kept_request request) }
{}

/// A law: of each field that the machine reads a record keeps all values in order; all that it
/// keeps are such fields; and `Authorization` and `Cookie` are none.
pub fn records_keep_what_is_read()
    ensures all_values { (known : Known) (request : TheRequest)
        → fields_named (name_of known) (kept_request request).fields
        ≡ fields_named (name_of known) request.fields }
    ensures none_else { (request : TheRequest)
        → All (λ (field : TheField). (known : Known) × (field.name ≡ name_of known))
        (kept_request request).fields }
    ensures no_authorization { (name : List ℕ)
        → same_ignoring_case name (codes "authorization") ≡ true → read_field_of name ≡ None }
    ensures no_cookie { (name : List ℕ)
        → same_ignoring_case name (codes "cookie") ≡ true → read_field_of name ≡ None }
{}
