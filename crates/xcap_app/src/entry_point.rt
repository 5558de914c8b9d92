// The entry point.
ghost use Rattle.std.specs.Prelude.{◌≡◌, ◌≤◌, ℕ, List, [], map, string_bytes};
ghost use Rattle.xcap_app.specs.CommandLines.{parse_words};
ghost use Rattle.xcap_app.specs.Exits.{status_of, words_of};
ghost use Rattle.xcap_app.specs.CommandRuns.{RunsCommand, service_arguments};
ghost use Rattle.xcap_app.specs.ErrorMessages.{WritesMessage};
ghost use Rattle.xcap_io.specs.StreamStates.{StreamState};
ghost use Rattle.xcap_app.specs.StandardServing.{ServesByStandards};
ghost use Rattle.store_core.specs.ValidStates.{AreCountable};
ghost use Rattle.xcap_app.specs.declared.command.Command.TheVariants.{Host, Serve};
ghost use Rattle.xcap_app.specs.declared.host_options.HostOptions.{HostOptions as Options};
ghost use Rattle.xcap_app.specs.declared.command_line.CommandLine.TheVariants.{Runs};
ghost use Rattle.xcap_app.specs.declared.exit.Exit.{Exit};

use crate::check::check;
use crate::client_runs::{run_delete, run_fetch, run_follow, run_put};
use crate::command::Command;
use crate::command_line::{CommandLine, parse_words};
use crate::exit::Exit;
use crate::host::host;
use crate::keep::keep;
use crate::messages::report_exit;
use crate::replay::replay;
use crate::sample::sample;
use crate::serve::run_serve;
use edit_ops::Edit;
use halls::Hall;
use std::alloc::Global;
use watchers::Watchers;
use xcap_io::{Line, Peer, Port, Sink, Source};

// Runs the command. The limits of `host` can be counted by a store.
fn execute<P: Port, H: Hall, C: Peer, I: Source, O: Sink, E: Sink, W: Watchers<Edit>>(
    alloc: Global,
    command: &Command,
    first: u64,
    port: &mut P,
    hall: &mut H,
    peer: &mut C,
    input: &mut I,
    output: &mut O,
    errors: &mut E,
    watchers: &mut W,
) -> Exit
    requires positive { 1 ≤ first }
    requires limits_countable { (address root : List ℕ) (options : Options)
        → command.now ≡ Host address root options → AreCountable options.limits }
    requires no_connections { (H.state hall.old).connections ≡ [] }
    ensures runs_command { RunsCommand W.keeps first (Runs command.now) result
        (record {
          port = P.state port.old;
          hall = H.state hall.old;
          peer = C.state peer.old;
          input = I.state input.old;
          output = O.state output.old;
          errors = E.state errors.old;
          watchers = watchers.old;
        })
        (record {
          port = P.state port.new;
          hall = H.state hall.new;
          peer = C.state peer.new;
          input = I.state input.new;
          output = O.state output.new;
          errors = E.state errors.new;
          watchers = watchers.new;
        }) }
{
    match command {
        Command::Replay { root } => replay(alloc, root, input, output, watchers),
        Command::Serve {
            address,
            root,
            count,
        } => run_serve(
            alloc,
            address.as_str(),
            root,
            *count,
            port,
            output,
            watchers,
        ),
        Command::Keep {
            address,
            root,
            count,
        } => keep(
            alloc,
            address.as_str(),
            root,
            *count,
            port,
            input,
            output,
            watchers,
        ),
        Command::Host {
            address,
            root,
            options,
        } => host(
            alloc,
            address.as_str(),
            root,
            *options,
            first,
            hall,
            errors,
            watchers,
        ),
        Command::Check { usage } => check(alloc, *usage, input, output),
        Command::Sample { requests } => sample(alloc, *requests, output),
        Command::Fetch { requester, path } => run_fetch(alloc, requester, path, peer, output),
        Command::Put {
            requester,
            path,
            media,
        } => { run_put(alloc, requester, path, media, peer, input, output) }
        Command::Delete { requester, path } => run_delete(alloc, requester, path, peer, output),
        Command::Follow {
            requester,
            document,
            rounds,
        } => run_follow(alloc, requester, document, *rounds, peer, output),
    }
}

// Runs the command that the words spell, if they spell one.
fn execute_words<P: Port, H: Hall, C: Peer, I: Source, O: Sink, E: Sink, W: Watchers<Edit>>(
    alloc: Global,
    words: &[String],
    first: u64,
    port: &mut P,
    hall: &mut H,
    peer: &mut C,
    input: &mut I,
    output: &mut O,
    errors: &mut E,
    watchers: &mut W,
) -> Exit
    requires positive { 1 ≤ first }
    requires no_connections { (H.state hall.old).connections ≡ [] }
    ensures runs_command { RunsCommand W.keeps first (parse_words (map string_bytes words.now))
        result
        (record {
          port = P.state port.old;
          hall = H.state hall.old;
          peer = C.state peer.old;
          input = I.state input.old;
          output = O.state output.old;
          errors = E.state errors.old;
          watchers = watchers.old;
        })
        (record {
          port = P.state port.new;
          hall = H.state hall.new;
          peer = C.state peer.new;
          input = I.state input.new;
          output = O.state output.new;
          errors = E.state errors.new;
          watchers = watchers.new;
        }) }
{
    match parse_words(alloc, words) {
        Ok(CommandLine::Runs(command)) => {
            let exit = execute(
                alloc, &command, first, port, hall, peer, input, output, errors, watchers,
            );
            // Dropped by a call, whose proof is made once, rather than at each exit.
            drop(command);
            exit
        }
        Ok(CommandLine::BadHost(fault)) => Exit::BadHostWords(fault),
        Ok(CommandLine::NoCommand) => Exit::Usage,
        Err(_) => Exit::OutOfMemory,
    }
}

/// Runs the command that the words spell, which are the words of the command line without the
/// program's name, and returns the status to exit with. What each command did, by how it ended, is
/// defined by `RunsCommand`; each status has its message on `errors`, and where `errors` fails,
/// nothing else changes. `first` is the number of the first change of `host`. For words that spell
/// no command, it returns 2 and writes the usage line, or for words after `host` what is wrong with
/// them, and then nothing else is read, written, begun, requested or reported. The requests that
/// come to `serve` are answered as the standards say (`by_standards`).
pub fn run<P: Port, H: Hall, C: Peer, I: Source, O: Sink, E: Sink, W: Watchers<Edit>>(
    alloc: Global,
    words: &[String],
    first: u64,
    port: &mut P,
    hall: &mut H,
    peer: &mut C,
    input: &mut I,
    output: &mut O,
    errors: &mut E,
    watchers: &mut W,
) -> u8
    requires positive { 1 ≤ first }
    requires no_connections { (H.state hall.old).connections ≡ [] }
    ensures exit_status { (exit : Exit) × (told : StreamState) × (result ≡ status_of exit)
        × RunsCommand W.keeps first (parse_words (map string_bytes words.now)) exit
        (record {
          port = P.state port.old;
          hall = H.state hall.old;
          peer = C.state peer.old;
          input = I.state input.old;
          output = O.state output.old;
          errors = E.state errors.old;
          watchers = watchers.old;
        })
        (record {
          port = P.state port.new;
          hall = H.state hall.new;
          peer = C.state peer.new;
          input = I.state input.new;
          output = O.state output.new;
          errors = told;
          watchers = watchers.new;
        })
        × WritesMessage (words_of exit) told (E.state errors.new) }
    ensures by_standards { (address root : List ℕ) (count : ℕ)
        → parse_words (map string_bytes words.now) ≡ Runs (Serve address root count)
        → (exit : Exit) × (result ≡ status_of exit)
        × ServesByStandards W.keeps (service_arguments address root count) exit
        (record { port = P.state port.old; watchers = watchers.old })
        (record { port = P.state port.new; watchers = watchers.new }) }
{
    let exit = execute_words(
        alloc, words, first, port, hall, peer, input, output, errors, watchers,
    );
    report_exit(alloc, errors, exit).status()
}
