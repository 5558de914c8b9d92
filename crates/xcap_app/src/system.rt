// The entry points over sockets and streams of the system.
ghost use Rattle.std.specs.Prelude.{◌≡◌, ◌≤◌, [], None, map, string_bytes};
ghost use Rattle.std.specs.Option.{option_map_or};
ghost use Rattle.xcap_io.specs.StreamStates.{StreamState, no_connections};
ghost use Rattle.xcap_app.specs.CommandLines.{parse_words};
ghost use Rattle.xcap_app.specs.Exits.{status_of, words_of};
ghost use Rattle.xcap_app.specs.CommandRuns.{RunsCommand};
ghost use Rattle.xcap_app.specs.SystemRuns.{DoesCommand};
ghost use Rattle.xcap_app.specs.ErrorMessages.{WritesMessage};
ghost use Rattle.xcap_app.specs.declared.command_line.CommandLine.TheVariants.{NoCommand};
ghost use Rattle.xcap_app.specs.declared.exit.Exit.{Exit};

use crate::entry_point::run;
use crate::exit::Exit;
use crate::messages::report_exit;
use edit_ops::Edit;
use halls::Hall;
use std::alloc::Global;
use std::io::{Read, Write};
use std::net::Net;
use std::time::Clock;
use watchers::{Audit, Watchers};
use xcap_io::{Line, StdSink, StdSource, TcpPeer, TcpPort};

/// Runs the command that the words spell, as `run` does, over sockets and streams without any
/// traffic before. Where it returns 0, the traffic is what the command specifies: for `serve`, the
/// bytes taken on each socket are the replies to the bytes given on it; for `replay`, the output
/// took the replies to the bytes of the input; for `keep`, as for `serve`, from the state on that
/// the records of the input lead to, and the output took the records of all accepted requests; for
/// `host`, as for `serve`, on connections that were open at once, from the first number on; for
/// `check`, the bytes given are a valid document; for `sample`, the output took its summary; for a
/// command of the client, one connection was begun for each of its calls, and the output took what
/// the responses given there determine. The watchers were notified of exactly the changes that
/// were made, in order.
pub fn run_on_system<
    N: Net + Clock + Drop,
    H: Hall,
    I: Read,
    O: Write,
    E: Write,
    W: Watchers<Edit>,
>(
    alloc: Global,
    words: &[String],
    first: u64,
    port: &mut TcpPort<N>,
    hall: &mut H,
    peer: &mut TcpPeer<N>,
    input: &mut StdSource<I>,
    output: &mut StdSink<O>,
    errors: &mut StdSink<E>,
    watchers: &mut W,
) -> u8
    requires positive { 1 ≤ first }
    requires no_hall_connections { (H.state hall.old).connections ≡ [] }
    requires no_connections { (⟦<TcpPort<N> as Line>⟧.state port.old).port.begun ≡ no_connections }
    requires none_given { (⟦<StdSource<I> as Line>⟧.state input.old).inward.given ≡ [] }
    requires none_taken { (⟦<StdSink<O> as Line>⟧.state output.old).taken ≡ [] }
    ensures status_0_done { result ≡ 0
        → DoesCommand W.keeps first (parse_words (map string_bytes words.now))
        (record {
          port = ⟦<TcpPort<N> as Line>⟧.state port.old;
          hall = H.state hall.old;
          peer = ⟦<TcpPeer<N> as Line>⟧.state peer.old;
          input = ⟦<StdSource<I> as Line>⟧.state input.old;
          output = ⟦<StdSink<O> as Line>⟧.state output.old;
          errors = ⟦<StdSink<E> as Line>⟧.state errors.old;
          watchers = watchers.old;
        })
        (record {
          port = ⟦<TcpPort<N> as Line>⟧.state port.new;
          hall = H.state hall.new;
          peer = ⟦<TcpPeer<N> as Line>⟧.state peer.new;
          input = ⟦<StdSource<I> as Line>⟧.state input.new;
          output = ⟦<StdSink<O> as Line>⟧.state output.new;
          errors = ⟦<StdSink<E> as Line>⟧.state errors.new;
          watchers = watchers.new;
        }) }
    ensures exit_status { (exit : Exit) × (told : StreamState) × (result ≡ status_of exit)
        × RunsCommand W.keeps first (parse_words (map string_bytes words.now)) exit
        (record {
          port = ⟦<TcpPort<N> as Line>⟧.state port.old;
          hall = H.state hall.old;
          peer = ⟦<TcpPeer<N> as Line>⟧.state peer.old;
          input = ⟦<StdSource<I> as Line>⟧.state input.old;
          output = ⟦<StdSink<O> as Line>⟧.state output.old;
          errors = ⟦<StdSink<E> as Line>⟧.state errors.old;
          watchers = watchers.old;
        })
        (record {
          port = ⟦<TcpPort<N> as Line>⟧.state port.new;
          hall = H.state hall.new;
          peer = ⟦<TcpPeer<N> as Line>⟧.state peer.new;
          input = ⟦<StdSource<I> as Line>⟧.state input.new;
          output = ⟦<StdSink<O> as Line>⟧.state output.new;
          errors = told;
          watchers = watchers.new;
        })
        × WritesMessage (words_of exit) told (⟦<StdSink<E> as Line>⟧.state errors.new) }
{
    run(
        alloc, words, first, port, hall, peer, input, output, errors, watchers,
    )
}

/// Runs the command that the words spell, as `run_on_system` does, and notifies one audit of the
/// changes. Where there are no words, since memory ran out for them, nothing is done, and the run
/// ends with that status and its message. The program calls nothing else.
pub fn start<N: Net + Clock + Drop, H: Hall, I: Read, O: Write, E: Write + Drop>(
    alloc: Global,
    words: Option<Vec<String>>,
    first: u64,
    port: &mut TcpPort<N>,
    hall: &mut H,
    peer: &mut TcpPeer<N>,
    input: &mut StdSource<I>,
    output: &mut StdSink<O>,
    errors: &mut StdSink<E>,
    audit: &mut Option<Audit<StdSink<E>>>,
) -> u8
    requires positive { 1 ≤ first }
    requires no_hall_connections { (H.state hall.old).connections ≡ [] }
    requires no_connections { (⟦<TcpPort<N> as Line>⟧.state port.old).port.begun ≡ no_connections }
    requires none_given { (⟦<StdSource<I> as Line>⟧.state input.old).inward.given ≡ [] }
    requires none_taken { (⟦<StdSink<O> as Line>⟧.state output.old).taken ≡ [] }
    ensures status_0_done { result ≡ 0
        → DoesCommand ⟦<Option<Audit<StdSink<E>>> as Watchers<Edit>>⟧.keeps first
        (option_map_or (λ words. parse_words (map string_bytes words.items)) words NoCommand)
        (record {
          port = ⟦<TcpPort<N> as Line>⟧.state port.old;
          hall = H.state hall.old;
          peer = ⟦<TcpPeer<N> as Line>⟧.state peer.old;
          input = ⟦<StdSource<I> as Line>⟧.state input.old;
          output = ⟦<StdSink<O> as Line>⟧.state output.old;
          errors = ⟦<StdSink<E> as Line>⟧.state errors.old;
          watchers = audit.old;
        })
        (record {
          port = ⟦<TcpPort<N> as Line>⟧.state port.new;
          hall = H.state hall.new;
          peer = ⟦<TcpPeer<N> as Line>⟧.state peer.new;
          input = ⟦<StdSource<I> as Line>⟧.state input.new;
          output = ⟦<StdSink<O> as Line>⟧.state output.new;
          errors = ⟦<StdSink<E> as Line>⟧.state errors.new;
          watchers = audit.new;
        }) }
    ensures exit_status { (exit : Exit) × (told : StreamState) × (result ≡ status_of exit)
        × RunsCommand ⟦<Option<Audit<StdSink<E>>> as Watchers<Edit>>⟧.keeps first
        (option_map_or (λ words. parse_words (map string_bytes words.items)) words NoCommand) exit
        (record {
          port = ⟦<TcpPort<N> as Line>⟧.state port.old;
          hall = H.state hall.old;
          peer = ⟦<TcpPeer<N> as Line>⟧.state peer.old;
          input = ⟦<StdSource<I> as Line>⟧.state input.old;
          output = ⟦<StdSink<O> as Line>⟧.state output.old;
          errors = ⟦<StdSink<E> as Line>⟧.state errors.old;
          watchers = audit.old;
        })
        (record {
          port = ⟦<TcpPort<N> as Line>⟧.state port.new;
          hall = H.state hall.new;
          peer = ⟦<TcpPeer<N> as Line>⟧.state peer.new;
          input = ⟦<StdSource<I> as Line>⟧.state input.new;
          output = ⟦<StdSink<O> as Line>⟧.state output.new;
          errors = told;
          watchers = audit.new;
        })
        × WritesMessage (words_of exit) told (⟦<StdSink<E> as Line>⟧.state errors.new) }
    ensures no_words_status { words ≡ None → result ≡ status_of Exit.OutOfMemory }
{
    let Some(words) = words else {
        return report_exit(alloc, errors, Exit::OutOfMemory).status();
    };
    run_on_system(
        alloc, &words, first, port, hall, peer, input, output, errors, audit,
    )
}
