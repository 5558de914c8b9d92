//! Texts, character by character, and how many characters they have.
ghost use Rattle.std.specs.Prelude.{◌≡◌, ◌==◌, ◌<◌, ◌-◌, ◌++◌, [], ◌∷◌, drop, take, length, chars};
ghost use Rattle.std.specs.Prelude.{IfSome, IfNone};
ghost use Rattle.xml_grammar.specs.TextReading.{first_char_is};
ghost use Rattle.xml_grammar.specs.readers.Suffixes.{EndsWith};

/// The first character of a text, and what follows it. Most are ASCII.
#[inline(always)]
pub fn split_first(text: &str) -> Option<(char, &str)>
    ensures first_and_rest { IfSome result (λ x. chars text.now ≡ x.0 ∷ chars x.1.now) }
    ensures rest_shrinks { IfSome result (λ x. length x.1.now < length text.now) }
    ensures none_is_empty { IfNone result (chars text.now ≡ []) }
{
    let bytes = text.as_bytes();
    if bytes.is_empty() {
        return None;
    }
    let first = bytes[0];
    if first < 128 {
        return Some((first as char, &text[1..]));
    }
    split_any_first(text)
}

/// `split_first` for any character.
#[inline(never)]
fn split_any_first(text: &str) -> Option<(char, &str)>
    ensures first_and_rest { IfSome result (λ x. chars text.now ≡ x.0 ∷ chars x.1.now) }
    ensures rest_shrinks { IfSome result (λ x. length x.1.now < length text.now) }
    ensures none_is_empty { IfNone result (chars text.now ≡ []) }
{
    let mut all = text.chars();
    match all.next() {
        Some(first) => Some((first, all.as_str())),
        None => None,
    }
}

/// Whether a text begins with a character.
#[inline(always)]
pub fn starts_with_char(text: &str, letter: char) -> bool
    ensures exact { result ≡ first_char_is (λ c. c == letter) (chars text.now) }
{
    match split_first(text) {
        Some((first, _)) => first == letter,
        None => false,
    }
}

/// The empty text.
pub fn empty_str() -> &'static str
    ensures has_no_characters { chars result.now ≡ [] }
{
    ""
}

/// Whether a text is empty.
#[inline(always)]
pub fn is_at_end(text: &str) -> bool
    ensures exact { result ≡ (length (chars text.now) == 0) }
{
    match split_first(text) {
        Some(_) => false,
        None => true,
    }
}

/// How many characters a text has.
pub fn count(text: &str) -> usize
    ensures exact { result ≡ length (chars text.now) }
{
    if text.is_ascii() {
        return text.len();
    }
    text.chars().count()
}

/// The part of a text before this rest of it.
#[inline(always)]
pub fn text_before<'a>(text: &'a str, rest: &str) -> &'a str
    requires { EndsWith (chars text.now) (chars rest.now) }
    ensures parts_of_text { chars text.now ≡ chars result.now ++ chars rest.now }
    ensures front_of_text { result.now ≡ take (length result.now) text.now }
{
    let len = text.len() - rest.len();
    &text[..len]
}

/// How many characters of a text come before this rest of it.
pub fn count_before(text: &str, rest: &str) -> usize
    requires { EndsWith (chars text.now) (chars rest.now) }
    ensures exact { result ≡ length (chars text.now) - length (chars rest.now) }
{
    count(text_before(text, rest))
}

/// The rest of a text after its first `n` characters, empty if it has no more.
pub fn skip_chars(text: &str, n: usize) -> &str
    ensures exact { chars result.now ≡ drop n (chars text.now) }
{
    let mut rest = text;
    let mut left = n;
    'each: while left > 0 {
        match split_first(rest) {
            Some((_, after)) => {
                rest = after;
                left -= 1;
            }
            None => return rest,
        }
    }
    rest
}
