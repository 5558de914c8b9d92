// The words of the client's commands.
ghost use Rattle.std.specs.Prelude.{◌≡◌, IfOk, codes};
ghost use Rattle.std.specs.List.{list_all};
ghost use Rattle.std.specs.Str.{bytes_eq};
ghost use Rattle.xcap_uri.specs.Delimiters.{front_before};
ghost use Rattle.xcap_app.specs.ClientArguments.{parse_requester_and_word, parse_requester};
ghost use Rattle.xcap_app.specs.ClientArguments.{parse_delete, parse_fetch};
ghost use Rattle.xcap_app.specs.ClientArguments.{parse_follow, has_scheme_http, parse_http_root};
ghost use Rattle.xcap_app.specs.ClientArguments.{is_word_octet, is_word, numeral_up_to, parse_put};
ghost use Rattle.xcap_app.specs.ClientArguments.{word_text, parse_user};

use crate::command::Command;
use client_commands::Requester;
use std::alloc::{AllocError, Global};
use xcap_uri::{Root, cut, parse_numeral, read_root};
use xml_names::Text;

const MAX_ROUNDS: u64 = 1_000;

fn is_word_octet(octet: u8) -> bool
    ensures exact { result ≡ is_word_octet octet }
{
    octet >= 0x21 && octet <= 0x7e
}

fn are_word_octets(octets: &[u8]) -> bool
    ensures ok { result ≡ list_all is_word_octet octets.now }
{
    octets.iter().all(|octet| is_word_octet(*octet))
}

fn is_word(word: &str) -> bool
    ensures exact { result ≡ is_word word.now }
{
    !word.is_empty() && are_word_octets(word.as_bytes())
}

// A word, as a text.
fn word_text(alloc: Global, word: &str) -> Result<Option<Text>, AllocError>
    ensures ok { IfOk result (λ text. text ≡ word_text word.now) }
{
    if !is_word(word) {
        return Ok(None);
    }
    let text = Text::from(alloc, word)?;
    Ok(Some(text))
}

// The user that a word names, if it isn't a dash.
fn parse_user(alloc: Global, word: &str) -> Result<Option<Text>, AllocError>
    ensures ok { IfOk result (λ user. user ≡ parse_user word.now) }
{
    if word == "-" {
        return Ok(None);
    }
    let user = Text::from(alloc, word)?;
    Ok(Some(user))
}

// Whether the text before the first colon is `http`.
fn begins_with_http(text: &[u8]) -> bool
    ensures exact { result ≡ bytes_eq (front_before 58 text.now) (codes "http") }
{
    let (scheme, _) = cut(text, b':');
    scheme == b"http".as_slice()
}

fn has_scheme_http(root: &Root) -> bool
    ensures exact { result ≡ has_scheme_http root.now }
{
    begins_with_http(root.text().as_bytes())
}

// The root of a word, if its scheme is `http`.
fn parse_http_root(alloc: Global, word: &str) -> Result<Option<Root>, AllocError>
    ensures ok { IfOk result (λ root. root ≡ parse_http_root word.now) }
{
    match read_root(alloc, word)? {
        Some(root) if has_scheme_http(&root) => Ok(Some(root)),
        _ => Ok(None),
    }
}

// The requester of USER and ROOT.
fn parse_requester(alloc: Global, user: &str, root: &str) -> Result<Option<Requester>, AllocError>
    ensures ok { IfOk result (λ requester. requester ≡ parse_requester user.now root.now) }
{
    if !is_word(user) {
        return Ok(None);
    }
    let Some(root) = parse_http_root(alloc, root)? else {
        return Ok(None);
    };
    let user = parse_user(alloc, user)?;
    Ok(Some(Requester { user, root }))
}

// The ROUNDS of a word.
#[tactic(auto, unfolding(crate::specs::ClientArguments::numeral_up_to))]
fn parse_rounds(word: &str) -> Option<u64>
    ensures exact { result ≡ numeral_up_to MAX_ROUNDS word.now }
{
    let number = parse_numeral(word.as_bytes())?;
    if number > MAX_ROUNDS {
        return None;
    }
    Some(number)
}

// The requester of USER and ROOT, and the text of the word after them.
fn parse_requester_and_word(
    alloc: Global,
    user: &str,
    root: &str,
    word: &str,
) -> Result<Option<(Requester, Text)>, AllocError>
    ensures ok { IfOk result
        (λ asked. asked ≡ parse_requester_and_word user.now root.now word.now) }
{
    let Some(word) = word_text(alloc, word)? else {
        return Ok(None);
    };
    match parse_requester(alloc, user, root)? {
        Some(requester) => Ok(Some((requester, word))),
        None => Ok(None),
    }
}

// The command `fetch` with three words.
pub(crate) fn parse_fetch(
    alloc: Global,
    user: &str,
    root: &str,
    path: &str,
) -> Result<Option<Command>, AllocError>
    ensures ok { IfOk result (λ command. command ≡ parse_fetch user.now root.now path.now) }
{
    match parse_requester_and_word(alloc, user, root, path)? {
        Some((requester, path)) => Ok(Some(Command::Fetch { requester, path })),
        None => Ok(None),
    }
}

// The command `delete` with three words.
pub(crate) fn parse_delete(
    alloc: Global,
    user: &str,
    root: &str,
    path: &str,
) -> Result<Option<Command>, AllocError>
    ensures ok { IfOk result (λ command. command ≡ parse_delete user.now root.now path.now) }
{
    match parse_requester_and_word(alloc, user, root, path)? {
        Some((requester, path)) => Ok(Some(Command::Delete { requester, path })),
        None => Ok(None),
    }
}

// The command `put` with four words.
pub(crate) fn parse_put(
    alloc: Global,
    user: &str,
    root: &str,
    path: &str,
    media: &str,
) -> Result<Option<Command>, AllocError>
    ensures ok { IfOk result (λ command. command ≡ parse_put user.now root.now path.now media.now) }
{
    let Some(media) = word_text(alloc, media)? else {
        return Ok(None);
    };
    match parse_requester_and_word(alloc, user, root, path)? {
        Some((requester, path)) => Ok(Some(Command::Put {
            requester,
            path,
            media,
        })),
        None => Ok(None),
    }
}

// The command `follow` with four words.
pub(crate) fn parse_follow(
    alloc: Global,
    user: &str,
    root: &str,
    document: &str,
    rounds: &str,
) -> Result<Option<Command>, AllocError>
    ensures ok { IfOk result
        (λ command. command ≡ parse_follow user.now root.now document.now rounds.now) }
{
    let Some(rounds) = parse_rounds(rounds) else {
        return Ok(None);
    };
    match parse_requester_and_word(alloc, user, root, document)? {
        Some((requester, document)) => Ok(Some(Command::Follow {
            requester,
            document,
            rounds,
        })),
        None => Ok(None),
    }
}
