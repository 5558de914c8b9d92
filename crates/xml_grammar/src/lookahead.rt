//! What comes next in a text, by its bytes: an ASCII character is one byte, and no byte of
//! another character equals it.
ghost use Rattle.std.specs.Prelude.{◌≡◌, ◌==◌, ◌||◌, ◌<◌, false, [], ◌∷◌, chars, IfSome, IfNone};
ghost use Rattle.std.specs.Int.{is_in_range as within};
ghost use Rattle.xml_grammar.specs.TextReading.{first_char_is, starts_with_word};

/// Whether a letter is the first of these bytes.
#[inline(always)]
fn starts_with_letter(bytes: &[u8], letter: char) -> bool
    ensures exact { result ≡ first_char_is (λ c. c == letter) bytes.now }
{
    match bytes {
        [first, ..] => *first as char == letter,
        [] => false,
    }
}

/// Whether one of two letters is the first of these bytes.
#[inline(always)]
fn starts_with_either(bytes: &[u8], one: char, other: char) -> bool
    ensures exact { result ≡ first_char_is (λ c. c == one || c == other) bytes.now }
{
    match bytes {
        [first, ..] => *first as char == one || *first as char == other,
        [] => false,
    }
}

/// Whether a lower-case letter is the first of these bytes.
#[inline(always)]
fn starts_with_lowercase(bytes: &[u8]) -> bool
    ensures exact { result ≡ first_char_is (within 97 122) bytes.now }
{
    match bytes {
        [first, ..] => matches!(*first, b'a'..=b'z'),
        [] => false,
    }
}

/// Whether an ASCII character comes next.
#[inline(always)]
pub fn is_next(text: &str, letter: char) -> bool
    requires { letter < 128 }
    ensures exact { result ≡ first_char_is (λ c. c == letter) (chars text.now) }
{
    starts_with_letter(text.as_bytes(), letter)
}

/// Whether one of two ASCII characters comes next.
#[inline(always)]
pub fn is_either_next(text: &str, one: char, other: char) -> bool
    requires one_is_ascii { one < 128 }
    requires other_is_ascii { other < 128 }
    ensures exact { result ≡ first_char_is (λ c. c == one || c == other) (chars text.now) }
{
    starts_with_either(text.as_bytes(), one, other)
}

/// Whether a lower-case letter comes next.
#[inline(always)]
pub fn is_lowercase_next(text: &str) -> bool
    ensures exact { result ≡ first_char_is (within 97 122) (chars text.now) }
{
    starts_with_lowercase(text.as_bytes())
}

/// What follows an ASCII character, if it comes next.
#[inline(always)]
pub fn strip_char(text: &str, letter: char) -> Option<&str>
    requires { letter < 128 }
    ensures letter_and_rest { IfSome result (λ rest. chars text.now ≡ letter ∷ chars rest.now) }
    ensures none_not_next { IfNone result
        (first_char_is (λ c. c == letter) (chars text.now) ≡ false) }
{
    if !starts_with_letter(text.as_bytes(), letter) {
        return None;
    }
    Some(&text[1..])
}

/// Whether two ASCII characters come next.
#[inline(always)]
pub fn are_both_next(text: &str, first: char, second: char) -> bool
    requires first_is_ascii { first < 128 }
    requires second_is_ascii { second < 128 }
    ensures exact { result ≡ starts_with_word (first ∷ second ∷ []) (chars text.now) }
{
    match strip_char(text, first) {
        Some(rest) => is_next(rest, second),
        None => false,
    }
}
