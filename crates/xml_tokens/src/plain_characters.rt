//! Plain characters: ASCII characters that are read as themselves.
ghost use Rattle.std.specs.Prelude.{◌≡◌};
ghost use Rattle.xml_tokens.specs.readers.CharacterRuns.{is_plain_in_content, is_plain_in_name};
ghost use Rattle.xml_tokens.specs.readers.CharacterRuns.{is_plain_in_value};

/// Whether a character is an ASCII one that is raw in content whatever surrounds it, and read as
/// itself.
#[inline(always)]
pub fn is_plain_in_content(c: char) -> bool
    ensures exact { result ≡ is_plain_in_content c }
{
    matches!(c, '^'..='~')
        || c == ' '
        || c == '\n'
        || matches!(c, '='..='\\')
        || matches!(c, '!'..='%')
        || matches!(c, '\''..=';')
}

/// Whether a character is an ASCII one that is raw in a value, whatever its quotes are, and read
/// as itself.
#[inline(always)]
pub fn is_plain_in_value(c: char) -> bool
    ensures exact { result ≡ is_plain_in_value c }
{
    matches!(c, '('..=';')
        || matches!(c, '='..='~')
        || matches!(c, '#'..='%')
        || c == ' '
        || c == '!'
}

/// Whether a character is an ASCII one of names.
#[inline(always)]
pub fn is_plain_in_name(c: char) -> bool
    ensures exact { result ≡ is_plain_in_name c }
{
    c == '-'
        || c == '.'
        || matches!(c, '0'..='9')
        || matches!(c, 'a'..='z')
        || matches!(c, 'A'..='Z')
        || c == '_'
}
