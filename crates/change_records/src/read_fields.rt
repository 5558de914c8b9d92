// The fields of a request that a record keeps.
ghost use Rattle.std.specs.Prelude.{◌≡◌};
ghost use Rattle.change_records.specs.ReadFields.{name_of, read_field_of};
ghost use Rattle.change_records.specs.Readings.{read_field_at};
ghost use Rattle.change_records.specs.Records.{field_number};

use request_checks::is_field_name;
use xml_names::Text;

/// A field that says whether a PUT or DELETE makes a change.
#[derive(Clone, Copy)]
pub enum ReadField {
    User,
    IfMatch,
    IfNoneMatch,
    ContentType,
    ContentEncoding,
}

impl ReadField {
    /// The field of this name, ignoring the case of letters. Does not allocate.
    #[tactic(auto, unfolding(crate::specs::ReadFields::read_field_of))]
    pub fn of(name: &Text) -> Option<ReadField>
        ensures exact { result ≡ read_field_of name.now }
    {
        if is_field_name(name, b"x-xcap-user") {
            return Some(ReadField::User);
        }
        if is_field_name(name, b"if-match") {
            return Some(ReadField::IfMatch);
        }
        if is_field_name(name, b"if-none-match") {
            return Some(ReadField::IfNoneMatch);
        }
        if is_field_name(name, b"content-type") {
            return Some(ReadField::ContentType);
        }
        if is_field_name(name, b"content-encoding") {
            return Some(ReadField::ContentEncoding);
        }
        None
    }

    /// Its number in records.
    pub(crate) fn number(self) -> u8
        ensures exact { result ≡ field_number self }
    {
        match self {
            ReadField::User => 1,
            ReadField::IfMatch => 2,
            ReadField::IfNoneMatch => 3,
            ReadField::ContentType => 4,
            ReadField::ContentEncoding => 5,
        }
    }

    /// The field of this number.
    pub(crate) fn numbered(number: u8) -> Option<ReadField>
        ensures exact { result ≡ read_field_at number }
    {
        match number {
            1 => Some(ReadField::User),
            2 => Some(ReadField::IfMatch),
            3 => Some(ReadField::IfNoneMatch),
            4 => Some(ReadField::ContentType),
            5 => Some(ReadField::ContentEncoding),
            _ => None,
        }
    }

    /// Its name in lower case.
    pub fn name(self) -> &'static str
        ensures exact { result.now ≡ name_of self }
    {
        match self {
            ReadField::User => "x-xcap-user",
            ReadField::IfMatch => "if-match",
            ReadField::IfNoneMatch => "if-none-match",
            ReadField::ContentType => "content-type",
            ReadField::ContentEncoding => "content-encoding",
        }
    }
}
