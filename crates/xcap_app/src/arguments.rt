// The words of the command line.
ghost use Rattle.std.specs.Prelude.{◌≡◌, IfOk, map, option_map, string_bytes};
ghost use Rattle.xcap_uri.specs.Roots.{root_of};
ghost use Rattle.xcap_app.specs.ClientArguments.{numeral_up_to};
ghost use Rattle.xcap_app.specs.Commands.{parse_command, parse_five_words, parse_four_words};
ghost use Rattle.xcap_app.specs.Commands.{parse_two_words, service_of_words};
ghost use Rattle.xcap_app.specs.Commands.{usage_named};

use crate::client_arguments::{parse_delete, parse_fetch, parse_follow, parse_put};
use crate::command::Command;
use doc_names::Usage;
use std::alloc::{AllocError, Global};
use xcap_uri::{Root, parse_numeral, read_root};
use xml_names::Text;

const MAX_COUNT: u64 = 1_000_000;

// The COUNT of a word.
#[tactic(auto, unfolding(crate::specs::ClientArguments::numeral_up_to))]
fn parse_count(word: &str) -> Option<u32>
    ensures exact { result ≡ numeral_up_to MAX_COUNT word.now }
{
    let number = parse_numeral(word.as_bytes())?;
    if number > MAX_COUNT {
        return None;
    }
    Some(number as u32)
}

const MAX_SAMPLE: u64 = 100_000;

// The N of a word.
#[tactic(auto, unfolding(crate::specs::ClientArguments::numeral_up_to))]
fn parse_sample_size(word: &str) -> Option<u32>
    ensures reads_rule { result ≡ numeral_up_to MAX_SAMPLE word.now }
{
    let number = parse_numeral(word.as_bytes())?;
    if number > MAX_SAMPLE {
        return None;
    }
    Some(number as u32)
}

// The usage that a word names.
#[tactic(auto, unfolding(crate::specs::Commands::usage_named))]
fn parse_usage(word: &str) -> Option<Usage>
    ensures exact { result ≡ usage_named word.now }
{
    if word == "resource-lists" {
        return Some(Usage::ResourceLists);
    }
    if word == "rls-services" {
        return Some(Usage::RlsServices);
    }
    None
}

// The command `replay` with one word.
fn parse_replay(alloc: Global, root: &str) -> Result<Option<Command>, AllocError>
    ensures ok { IfOk result
        (λ command. command ≡ option_map (λ r. Command.Replay r) (root_of root.now)) }
{
    match read_root(alloc, root)? {
        Some(root) => Ok(Some(Command::Replay { root })),
        None => Ok(None),
    }
}

// The command `check` with one word.
fn parse_check(word: &str) -> Option<Command>
    ensures exact { result ≡ option_map (λ usage. Command.Check usage) (usage_named word.now) }
{
    let usage = parse_usage(word)?;
    Some(Command::Check { usage })
}

// The command `sample` with one word.
fn parse_sample(word: &str) -> Option<Command>
    ensures exact { result
        ≡ option_map (λ n. Command.Sample n) (numeral_up_to MAX_SAMPLE word.now) }
{
    let requests = parse_sample_size(word)?;
    Some(Command::Sample { requests })
}

// An address, a root and a number of connections.
#[derive(Drop)]
struct ServiceOptions {
    address: Text,
    root: Root,
    count: u32,
}

// The options of a service in three words. The first may be any but an empty one.
fn parse_service(
    alloc: Global,
    address: &str,
    root: &str,
    count: &str,
) -> Result<Option<ServiceOptions>, AllocError>
    ensures ok { IfOk result
        (λ service. service ≡ service_of_words address.now root.now count.now) }
{
    if address.is_empty() {
        return Ok(None);
    }
    let Some(count) = parse_count(count) else {
        return Ok(None);
    };
    let Some(root) = read_root(alloc, root)? else {
        return Ok(None);
    };
    let address = Text::from(alloc, address)?;
    Ok(Some(ServiceOptions {
        address,
        root,
        count,
    }))
}

// The command `serve` with three words.
fn parse_serve(
    alloc: Global,
    address: &str,
    root: &str,
    count: &str,
) -> Result<Option<Command>, AllocError>
    ensures ok { IfOk result
        (λ command. command ≡ option_map (λ s. Command.Serve s.address s.root s.count)
        (service_of_words address.now root.now count.now)) }
{
    match parse_service(alloc, address, root, count)? {
        Some(
            ServiceOptions {
                address,
                root,
                count,
            },
        ) => Ok(Some(Command::Serve {
            address,
            root,
            count,
        })),
        None => Ok(None),
    }
}

// The command `keep` with three words.
fn parse_keep(
    alloc: Global,
    address: &str,
    root: &str,
    count: &str,
) -> Result<Option<Command>, AllocError>
    ensures ok { IfOk result
        (λ command. command ≡ option_map (λ s. Command.Keep s.address s.root s.count)
        (service_of_words address.now root.now count.now)) }
{
    match parse_service(alloc, address, root, count)? {
        Some(
            ServiceOptions {
                address,
                root,
                count,
            },
        ) => Ok(Some(Command::Keep {
            address,
            root,
            count,
        })),
        None => Ok(None),
    }
}

// The command of two words.
#[tactic(auto, unfolding(crate::specs::Commands::parse_two_words))]
fn parse_two_words(alloc: Global, name: &str, word: &str) -> Result<Option<Command>, AllocError>
    ensures reads_two_words { IfOk result (λ command. command ≡ parse_two_words name.now word.now) }
{
    if name == "replay" {
        return parse_replay(alloc, word);
    }
    if name == "check" {
        return Ok(parse_check(word));
    }
    if name == "sample" {
        return Ok(parse_sample(word));
    }
    Ok(None)
}

// The command of four words.
#[tactic(auto, unfolding(crate::specs::Commands::parse_four_words))]
fn parse_four_words(
    alloc: Global,
    name: &str,
    first: &str,
    root: &str,
    last: &str,
) -> Result<Option<Command>, AllocError>
    ensures reads_four_words { IfOk result
        (λ command. command ≡ parse_four_words name.now first.now root.now last.now) }
{
    if name == "serve" {
        return parse_serve(alloc, first, root, last);
    }
    if name == "keep" {
        return parse_keep(alloc, first, root, last);
    }
    if name == "fetch" {
        return parse_fetch(alloc, first, root, last);
    }
    if name == "delete" {
        return parse_delete(alloc, first, root, last);
    }
    Ok(None)
}

// The command of five words.
#[tactic(auto, unfolding(crate::specs::Commands::parse_five_words))]
fn parse_five_words(
    alloc: Global,
    name: &str,
    user: &str,
    root: &str,
    path: &str,
    last: &str,
) -> Result<Option<Command>, AllocError>
    ensures reads_five_words { IfOk result
        (λ command. command ≡ parse_five_words name.now user.now root.now path.now last.now) }
{
    if name == "put" {
        return parse_put(alloc, user, root, path, last);
    }
    if name == "follow" {
        return parse_follow(alloc, user, root, path, last);
    }
    Ok(None)
}

/// The command that words spell, if they spell one.
///
/// # Errors
/// `AllocError` when out of memory.
pub(crate) fn parse_command(alloc: Global, words: &[String]) -> Result<Option<Command>, AllocError>
    ensures ok { IfOk result (λ command. command ≡ parse_command (map string_bytes words.now)) }
{
    match words {
        [name, word] => parse_two_words(alloc, name.as_str(), word.as_str()),
        [name, first, root, last] => parse_four_words(
            alloc,
            name.as_str(),
            first.as_str(),
            root.as_str(),
            last.as_str(),
        ),
        [name, user, root, path, last] => parse_five_words(
            alloc,
            name.as_str(),
            user.as_str(),
            root.as_str(),
            path.as_str(),
            last.as_str(),
        ),
        _ => Ok(None),
    }
}
