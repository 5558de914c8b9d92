//! Cuts octets at the delimiters of an address's parts (RFC 3986, section 3).
ghost use Rattle.std.specs.Prelude.{◌≡◌, option_map};
ghost use Rattle.xml_tokens.specs.Tokens.{is_different_char};
ghost use Rattle.xcap_uri.specs.Delimiters.{rest_after_front, front_before, rest_after};
ghost use Rattle.xml_tokens.specs.readers.CharacterRuns.{run_len};
ghost use Rattle.xml_grammar.specs.TextReading.{drop_while};

// The number of octets before the first `stop`.
#[tactic(auto, using(xml_tokens::proofs::RunLemmas::run_more, xml_tokens::proofs::RunLemmas::run_done))]
fn len_before(text: &[u8], stop: u8) -> usize
    ensures exact { result ≡ run_len (is_different_char stop) text.now }
{
    let mut len = 0;
    for &b in text {
        if b == stop {
            return len;
        }
        len += 1;
    }
    len
}

/// The octets before the first `stop`, and the rest from it on, which is empty where there is
/// none.
pub fn cut_before(text: &[u8], stop: u8) -> (&[u8], &[u8])
    ensures front_before_stop { result.0.now ≡ front_before stop text.now }
    ensures rest_after_stop { result.1.now ≡ drop_while (is_different_char stop) text.now }
{
    text.split_at(len_before(text, stop))
}

/// The octets before the first `stop`, and those after it, where there is one.
pub fn cut(text: &[u8], stop: u8) -> (&[u8], Option<&[u8]>)
    ensures front_before_stop { result.0.now ≡ front_before stop text.now }
    ensures rest_after_stop { option_map (λ x. x.now) result.1 ≡ rest_after stop text.now }
{
    let (front, rest) = cut_before(text, stop);
    match rest {
        [] => (front, None),
        [_, tail @ ..] => (front, Some(tail)),
    }
}

/// What comes after `front`, if the text begins with it.
pub fn strip_front<'a>(text: &'a [u8], front: &[u8]) -> Option<&'a [u8]>
    ensures rest_after_run { option_map (λ x. x.now) result ≡ rest_after_front front.now text.now }
{
    let mut rest = text;
    for &expected in front {
        match rest {
            [found, tail @ ..] if *found == expected => rest = tail,
            _ => return None,
        }
    }
    Some(rest)
}
