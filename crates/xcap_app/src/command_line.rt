// What the words of the command line spell.
ghost use Rattle.std.specs.Prelude.{◌≡◌, ℕ, List, None, Some, IfOk, map, option_map, string_bytes};
ghost use Rattle.xcap_app.specs.CommandLines.{parse_words, words_after_host};
ghost use Rattle.xcap_app.specs.HostWords.{host_of_words};
ghost use Rattle.xcap_app.specs.declared.command_line.CommandLine.TheVariants.{Runs};
ghost use Rattle.xcap_app.specs.declared.command.Command.TheVariants.{Host};
ghost use Rattle.xcap_app.specs.declared.host_options.HostOptions.{HostOptions as Options};

use crate::arguments::parse_command;
use crate::command::Command;
use crate::host_options::HostFault;
use crate::host_words::{connections_of_words, parse_host};
use std::alloc::{AllocError, Global};

/// What the words of a command line spell.
#[derive(Drop)]
pub enum CommandLine {
    /// A command.
    Runs(Command),
    /// The word `host`, with words after it that spell no command.
    BadHost(HostFault),
    /// No command.
    NoCommand,
}

// The words after the first, if that is `host`.
fn words_after_host(words: &[String]) -> Option<&[String]>
    ensures exact { option_map (λ rest. map string_bytes rest.now) result
        ≡ words_after_host (map string_bytes words.now) }
{
    let [name, rest @ ..] = words else {
        return None;
    };
    if name.as_str() == "host" {
        return Some(rest);
    }
    None
}

/// What the words of a command line spell.
///
/// # Errors
/// `AllocError` when out of memory.
pub(crate) fn parse_words(alloc: Global, words: &[String]) -> Result<CommandLine, AllocError>
    ensures ok { IfOk result (λ line. line ≡ parse_words (map string_bytes words.now)) }
{
    if let Some(rest) = words_after_host(words) {
        return parse_host(alloc, rest);
    }
    match parse_command(alloc, words)? {
        Some(command) => Ok(CommandLine::Runs(command)),
        None => Ok(CommandLine::NoCommand),
    }
}

/// How many connections are open at once at most, where the words spell the command `host`; 0 where
/// the first isn't `host`. Does not allocate.
pub fn connections_of_host(words: &[String]) -> usize
    ensures of_options { (rest : List (List ℕ)) (address root : List ℕ) (options : Options)
        → words_after_host (map string_bytes words.now) ≡ Some rest
        → host_of_words rest ≡ Runs (Host address root options) → result ≡ options.connections }
    ensures zero_for_others { words_after_host (map string_bytes words.now) ≡ None
        → result ≡ 0 }
{
    match words_after_host(words) {
        Some(rest) => connections_of_words(rest),
        None => 0,
    }
}
