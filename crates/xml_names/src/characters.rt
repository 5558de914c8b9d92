//! The classes of characters of XML 1.0, fifth edition (sections 2.2 and 2.3), and names.
ghost use Rattle.std.specs.Prelude.{◌≡◌, chars};
ghost use Rattle.std.specs.List.{list_all};
ghost use Rattle.xml_names.specs.Characters.{is_char, is_space, is_name_start, is_name_char};
ghost use Rattle.xml_names.specs.Characters.{is_non_start_char, is_name};

/// Whether a character is a Char, allowed in a document (XML 1.0, production 2).
pub fn is_char(c: char) -> bool
    ensures exact { result ≡ is_char c }
{
    matches!(c, '\t' | '\n' | '\r' | ' '..='\u{d7ff}' | '\u{e000}'..='\u{fffd}' | '\u{10000}'..='\u{10ffff}')
}

/// Whether a character is white space: a space, a tab or a line end (XML 1.0, production 3).
pub fn is_space(c: char) -> bool
    ensures exact { result ≡ is_space c }
{
    matches!(c, ' ' | '\t' | '\r' | '\n')
}

/// Whether a name without a colon may begin with a character (XML 1.0, production 4).
pub fn is_name_start(c: char) -> bool
    ensures exact { result ≡ is_name_start c }
{
    match c {
        'A'..='Z' | '_' | 'a'..='z' => true,
        '\u{c0}'..='\u{d6}' | '\u{d8}'..='\u{f6}' | '\u{f8}'..='\u{2ff}' => true,
        '\u{370}'..='\u{37d}' | '\u{37f}'..='\u{1fff}' | '\u{200c}'..='\u{200d}' => true,
        '\u{2070}'..='\u{218f}' | '\u{2c00}'..='\u{2fef}' | '\u{3001}'..='\u{d7ff}' => true,
        '\u{f900}'..='\u{fdcf}' | '\u{fdf0}'..='\u{fffd}' | '\u{10000}'..='\u{effff}' => true,
        _ => false,
    }
}

/// Whether a name without a colon may contain a character (XML 1.0, production 4a).
pub fn is_name_char(c: char) -> bool
    ensures exact { result ≡ is_name_char c }
{
    is_name_start(c) || is_non_start_char(c)
}

// The characters that a name may contain but not begin with.
fn is_non_start_char(c: char) -> bool
    ensures exact { result ≡ is_non_start_char c }
{
    match c {
        '-' | '.' | '0'..='9' | '\u{b7}' => true,
        '\u{300}'..='\u{36f}' | '\u{203f}'..='\u{2040}' => true,
        _ => false,
    }
}

/// Whether a text is an NCName: a name without a colon (Namespaces in XML 1.0, section 3).
pub fn is_name(text: &str) -> bool
    ensures exact { result ≡ is_name (chars text.now) }
{
    let Some(first) = text.chars().next() else {
        return false;
    };
    is_name_start(first) && has_name_chars(text)
}

// Whether a name may contain each of the characters.
fn has_name_chars(text: &str) -> bool
    ensures exact { result ≡ list_all is_name_char (chars text.now) }
{
    text.chars().all(|c| is_name_char(c))
}
