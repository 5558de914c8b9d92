// The words of `host`.
ghost use Rattle.std.specs.Prelude.{◌≡◌, ℕ, List, Ok, Err, IfOk, MatchResult, chars, map};
ghost use Rattle.std.specs.Prelude.{string_bytes};
ghost use Rattle.xcap_uri.specs.Roots.{root_of};
ghost use Rattle.xcap_app.specs.ClientArguments.{numeral_up_to};
ghost use Rattle.xcap_app.specs.HostWords.{bad_word, choices_of_words, choose_once};
ghost use Rattle.xcap_app.specs.HostWords.{host_of_choices, host_of_root, host_of_words};
ghost use Rattle.xcap_app.specs.HostWords.{no_choices, options_of_choices, with_value, with_word};
ghost use Rattle.xcap_app.specs.HostWords.{with_bytes, with_connections, with_documents};
ghost use Rattle.xcap_app.specs.HostWords.{with_home_bytes, with_home_documents};
ghost use Rattle.xcap_app.specs.declared.command_line.CommandLine.TheVariants.{Runs};
ghost use Rattle.xcap_app.specs.declared.command.Command.TheVariants.{Host};
ghost use Rattle.xcap_app.specs.declared.host_options.HostOptions.{HostOptions as Options};

use crate::command::Command;
use crate::command_line::CommandLine;
use crate::host_options::{HostFault, HostOptions};
use std::alloc::{AllocError, Global};
use store_core::{Limits, MAX_BYTE_LIMIT, MAX_DOCUMENT_LIMIT};
use xcap_uri::{Root, cut, parse_numeral, read_root};
use xml_names::Text;

// How many connections are open at once at most, where no word says so.
const DEFAULT_CONNECTIONS: usize = 1_024;

const MAX_CONNECTIONS: u64 = 65_536;

// The options that words have chosen.
#[derive(Clone, Copy)]
struct HostChoices {
    connections: Option<usize>,
    documents: Option<usize>,
    bytes: Option<u64>,
    home_documents: Option<usize>,
    home_bytes: Option<u64>,
}

// The number of connections of a value.
#[tactic(auto, unfolding(crate::specs::ClientArguments::numeral_up_to))]
fn parse_connections(value: &[u8]) -> Option<usize>
    ensures exact { result ≡ numeral_up_to MAX_CONNECTIONS value.now }
{
    let number = parse_numeral(value)?;
    if number > MAX_CONNECTIONS {
        return None;
    }
    Some(number as usize)
}

// The limit of documents of a value.
#[tactic(auto, unfolding(crate::specs::ClientArguments::numeral_up_to))]
fn parse_documents(value: &[u8]) -> Option<usize>
    ensures exact { result ≡ numeral_up_to MAX_DOCUMENT_LIMIT value.now }
{
    let number = parse_numeral(value)?;
    if number > MAX_DOCUMENT_LIMIT as u64 {
        return None;
    }
    Some(number as usize)
}

// The limit of bytes of a value.
#[tactic(auto, unfolding(crate::specs::ClientArguments::numeral_up_to))]
fn parse_bytes(value: &[u8]) -> Option<u64>
    ensures exact { result ≡ numeral_up_to MAX_BYTE_LIMIT value.now }
{
    let number = parse_numeral(value)?;
    if number > MAX_BYTE_LIMIT {
        return None;
    }
    Some(number)
}

// The value of an option, where no word chose one before.
fn choose_once<T: Copy>(before: Option<T>, value: Option<T>) -> Option<T>
    ensures exact { result ≡ choose_once before value }
{
    match before {
        Some(_) => None,
        None => value,
    }
}

// The choices with this number of connections, where no word chose one before.
fn with_connections(choices: HostChoices, value: &[u8]) -> Option<HostChoices>
    ensures exact { result ≡ with_connections choices value.now }
{
    let connections = choose_once(choices.connections, parse_connections(value))?;
    Some(HostChoices {
        connections: Some(connections),
        ..choices
    })
}

// The choices with this limit of documents, likewise.
fn with_documents(choices: HostChoices, value: &[u8]) -> Option<HostChoices>
    ensures exact { result ≡ with_documents choices value.now }
{
    let documents = choose_once(choices.documents, parse_documents(value))?;
    Some(HostChoices {
        documents: Some(documents),
        ..choices
    })
}

// The choices with this limit of bytes, likewise.
fn with_bytes(choices: HostChoices, value: &[u8]) -> Option<HostChoices>
    ensures exact { result ≡ with_bytes choices value.now }
{
    let bytes = choose_once(choices.bytes, parse_bytes(value))?;
    Some(HostChoices {
        bytes: Some(bytes),
        ..choices
    })
}

// The choices with this limit of a user's documents, likewise.
fn with_home_documents(choices: HostChoices, value: &[u8]) -> Option<HostChoices>
    ensures exact { result ≡ with_home_documents choices value.now }
{
    let documents = choose_once(choices.home_documents, parse_documents(value))?;
    Some(HostChoices {
        home_documents: Some(documents),
        ..choices
    })
}

// The choices with this limit of a user's bytes, likewise.
fn with_home_bytes(choices: HostChoices, value: &[u8]) -> Option<HostChoices>
    ensures exact { result ≡ with_home_bytes choices value.now }
{
    let bytes = choose_once(choices.home_bytes, parse_bytes(value))?;
    Some(HostChoices {
        home_bytes: Some(bytes),
        ..choices
    })
}

// The choices with one more, if there is such an option and no word chose it before.
#[tactic(auto, unfolding(crate::specs::HostWords::with_value))]
fn with_value(choices: HostChoices, name: &[u8], value: &[u8]) -> Option<HostChoices>
    ensures exact { result ≡ with_value choices name.now value.now }
{
    if name == b"connections".as_slice() {
        return with_connections(choices, value);
    }
    if name == b"documents".as_slice() {
        return with_documents(choices, value);
    }
    if name == b"bytes".as_slice() {
        return with_bytes(choices, value);
    }
    if name == b"home-documents".as_slice() {
        return with_home_documents(choices, value);
    }
    if name == b"home-bytes".as_slice() {
        return with_home_bytes(choices, value);
    }
    None
}

// The choices with that of one more word, if the word is a name, `=` and a value.
fn with_word(choices: HostChoices, word: &str) -> Option<HostChoices>
    ensures exact { result ≡ with_word choices word.now }
{
    let (name, value) = cut(word.as_bytes(), b'=');
    match value {
        Some(value) => with_value(choices, name, value),
        None => None,
    }
}

// The choices of all words, or the first word that is wrong.
fn choose_options(words: &[String]) -> Result<HostChoices, &str>
    ensures exact { MatchResult result
        (λ choices. choices_of_words no_choices (map string_bytes words.now) ≡ Ok choices)
        (λ word. choices_of_words no_choices (map string_bytes words.now) ≡ Err word.now) }
{
    let mut choices = HostChoices {
        connections: None,
        documents: None,
        bytes: None,
        home_documents: None,
        home_bytes: None,
    };
    let mut rest = words;
    'words: while let [word, later @ ..] = rest {
        let Some(more) = with_word(choices, word.as_str()) else {
            return Err(word.as_str());
        };
        choices = more;
        rest = later;
    }
    Ok(choices)
}

// The options of these choices.
fn options_of_choices(choices: &HostChoices) -> HostOptions
    ensures exact { result ≡ options_of_choices choices.now }
{
    let usual = Limits::usual();
    HostOptions {
        connections: choices.connections.unwrap_or(DEFAULT_CONNECTIONS),
        limits: Limits {
            documents: choices.documents.unwrap_or(usual.documents),
            bytes: choices.bytes.unwrap_or(usual.bytes),
            home_documents: choices.home_documents,
            home_bytes: choices.home_bytes,
        },
    }
}

// Words of `host` of which this one is wrong.
fn bad_word(alloc: Global, word: &str) -> Result<CommandLine, AllocError>
    ensures ok { IfOk result (λ line. line ≡ bad_word word.now) }
{
    let word = Text::from(alloc, word)?;
    Ok(CommandLine::BadHost(HostFault::BadWord(word)))
}

// The command `host` with these options.
fn make_host(
    alloc: Global,
    address: &str,
    root: Root,
    options: HostOptions,
) -> Result<CommandLine, AllocError>
    ensures ok { IfOk result (λ line. line ≡ Runs (Host (chars address.now) root options)) }
{
    let address = Text::from(alloc, address)?;
    Ok(CommandLine::Runs(Command::Host {
        address,
        root,
        options,
    }))
}

// The command `host` of an address, a root and the words after them.
fn parse_options(
    alloc: Global,
    address: &str,
    root: Root,
    words: &[String],
) -> Result<CommandLine, AllocError>
    ensures ok { IfOk result (λ line. line ≡ host_of_choices address.now root
        (choices_of_words no_choices (map string_bytes words.now))) }
{
    match choose_options(words) {
        Ok(choices) => make_host(alloc, address, root, options_of_choices(&choices)),
        Err(word) => bad_word(alloc, word),
    }
}

// The command `host` of an address that isn't empty, and the words after it.
fn parse_root(
    alloc: Global,
    address: &str,
    root: &str,
    words: &[String],
) -> Result<CommandLine, AllocError>
    ensures ok { IfOk result
        (λ line. line ≡ host_of_root address.now root.now (map string_bytes words.now)) }
{
    match read_root(alloc, root)? {
        Some(root) => parse_options(alloc, address, root, words),
        None => bad_word(alloc, root),
    }
}

/// What the words after `host` spell.
///
/// # Errors
/// `AllocError` when out of memory.
pub(crate) fn parse_host(alloc: Global, words: &[String]) -> Result<CommandLine, AllocError>
    ensures ok { IfOk result (λ line. line ≡ host_of_words (map string_bytes words.now)) }
{
    match words {
        [address, root, words @ ..] => {
            if address.is_empty() {
                return bad_word(alloc, address.as_str());
            }
            parse_root(alloc, address.as_str(), root.as_str(), words)
        }
        _ => Ok(CommandLine::BadHost(HostFault::Missing)),
    }
}

/// How many connections are open at once at most, by the words after `host`. Does not allocate.
pub(crate) fn connections_of_words(words: &[String]) -> usize
    ensures of_options { (address root : List ℕ) (options : Options)
        → host_of_words (map string_bytes words.now) ≡ Runs (Host address root options)
        → result ≡ options.connections }
{
    let [_, _, words @ ..] = words else {
        return 0;
    };
    match choose_options(words) {
        Ok(choices) => options_of_choices(&choices).connections,
        Err(_) => 0,
    }
}
