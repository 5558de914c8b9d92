//! What a request's head asks: method and right, the body's media type, and the conditions'
//! outcome. Upward: each is a function of the head alone (`method_of`, `is_allowed`,
//! `has_media_type`, `HasOutcome`); the fields `If-Match` and `If-None-Match` have exactly one
//! reading by the grammar (`IsConditionsReading`), and the conditions one outcome and one reply
//! (`IsConditionReply`). The standards are RFC 9110, sections 5.6.1, 8.3, 8.4, 8.8.3, 9.3 and 13,
//! and RFC 4825, sections 5.7 and 8.
//! The lines of a condition field are joined by commas before it is read: a tag may go over two
//! lines, and two lines `*` have no reading.
#![tactic(auto)]

mod condition_fields;
mod condition_laws;
mod condition_replies;
mod conditions;
mod entity_tags;
mod faults;
mod field_values;
mod head_replies;
mod laws;
mod media_types;
mod method;
mod outcomes;
mod rights;
mod verdicts;

pub use condition_fields::{Conditions, read_conditions};
pub use condition_laws::{conditions_have_one_answer, fields_have_one_reading};
pub use condition_replies::condition_reply;
pub use conditions::Outcome;
pub use entity_tags::{EntityTag, is_tag_byte};
pub use faults::ConditionFault;
pub use field_values::is_field_name;
pub use head_replies::reply_for_method;
pub use laws::conditions_have_one_outcome;
pub use media_types::{document_media_type, has_media_type};
pub use method::Method;
pub use outcomes::outcome;
pub use rights::is_allowed;
pub use verdicts::{Verdict, condition};
