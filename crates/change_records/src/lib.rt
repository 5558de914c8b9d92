//! Records of changes: what a log keeps of a PUT or DELETE, so that it can be made again.
//! `change_record` writes one, of the method, the target, the body and the fields that the machine
//! reads, and no others; `read_change` reads it back.
//! Upward: a record has one reading, which is the request with those fields
//! (`records_have_one_form`); each of them has its values, and none else is there, such as
//! `Authorization` or `Cookie` (`records_keep_what_is_read`). The form is this project's own; the
//! fields are those of RFC 9110, sections 8.3, 8.4 and 13.1, and the user's.
#![tactic(auto)]

mod laws;
mod read_fields;
mod record_reading;
mod record_writing;

pub use laws::{
    recorded_requests_are_recorded_again, records_have_one_form, records_keep_what_is_read,
};
pub use read_fields::ReadField;
pub use record_reading::{RecordFault, read_change};
pub use record_writing::change_record;
