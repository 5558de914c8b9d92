//! The program `xcapd`: it calls `start` over the real streams and sockets, and exits with its
//! status. It reads the words of the command line, and opens an audit of changes on the stream for
//! errors. For `host` it makes a hall of sockets, and reads the first number from the clock.
//! It promises what `start` promises, and adds nothing of its own.
//! The standard that its commands follow is RFC 4825.
//! If memory runs out for the words or the hall, `start` gets None in place of the words, and ends
//! with 7.
#![tactic(auto)]

ghost use Rattle.std.specs.Prelude.{◌≡◌, ◌≤◌, []};

use halls::{Hall, MemHall};
use poll_halls::{MioSockets, PollHall, TimeLimits};
use std::process::ExitCode;
use std::rt::Env;
use std::time::{Clock, Duration, SystemTime, UNIX_EPOCH};
use std::{env, io};
use watchers::Audit;
use xcap_app::{connections_of_host, start};
use xcap_io::{StdSink, StdSource, TcpPeer, TcpPort};

// When a connection's time is up.
fn time_limits() -> TimeLimits {
    TimeLimits {
        silence: Duration::from_secs(10),
        service: Duration::from_secs(300),
        rest: Duration::from_secs(60),
    }
}

// The words of the command line, without the program's name. A word that isn't UTF-8 spells no
// command, so there are no words then. None when out of memory for them, which is the only other
// reason for `args` to fail.
fn command_line_words<R: Env + Alloc>(rt: &R) -> Option<Vec<String<R::A>, R::A>> {
    let mut words = Vec::new(rt.alloc());
    match env::args(rt) {
        Ok(args) => {
            for word in args.skip(1) {
                words.push(word).ok()?;
            }
            Some(words)
        }
        Err(fault) if fault.kind() == io::ErrorKind::InvalidData => Some(words),
        Err(_) => None,
    }
}

// The microseconds since 1970 by the clock, so that no run gives the etags of an earlier one; 1
// where there is no clock.
fn first_number<C: Clock>(clock: &C) -> u64
    ensures positive { 1 ≤ result }
{
    let Ok(now) = SystemTime::now(clock) else {
        return 1;
    };
    match now.duration_since(UNIX_EPOCH) {
        Ok(elapsed) => u64::try_from(elapsed.as_micros())
            .unwrap_or(u64::MAX)
            .max(1),
        Err(_) => 1,
    }
}

// A hall to which nobody connects, for the commands that use none.
fn empty_hall(rt: &HostRuntime) -> MemHall
    ensures no_connections { (⟦<MemHall as Hall>⟧.state result).connections ≡ [] }
{
    MemHall::new(Vec::new(rt.alloc()), Vec::new(rt.alloc()))
}

// Runs the command over the real streams and sockets, and this hall.
fn start_with_hall<H: Hall>(rt: &HostRuntime, words: Option<Vec<String>>, hall: &mut H) -> u8
    requires no_connections { (H.state hall.old).connections ≡ [] }
{
    let alloc = rt.alloc();
    start(
        alloc,
        words,
        first_number(rt),
        &mut TcpPort::new(rt),
        hall,
        &mut TcpPeer::new(rt),
        &mut StdSource::new(rt.stdin()),
        &mut StdSink::new(rt.stdout()),
        &mut StdSink::new(rt.stderr()),
        &mut Some(Audit::new(alloc, StdSink::new(rt.stderr()))),
    )
}

// Runs the command `host` over a hall of sockets with this many places.
fn start_host(rt: &HostRuntime, words: Vec<String>, places: usize) -> u8 {
    let Ok(sockets) = MioSockets::new(rt.alloc(), rt) else {
        return start_with_hall(rt, None, &mut empty_hall(rt));
    };
    match PollHall::new(rt.alloc(), sockets, places, time_limits()) {
        Ok(mut hall) => start_with_hall(rt, Some(words), &mut hall),
        Err(_) => start_with_hall(rt, None, &mut empty_hall(rt)),
    }
}

fn main(rt: HostRuntime) -> ExitCode {
    let status = match command_line_words(&rt) {
        Some(words) => match connections_of_host(&words) {
            0 => start_with_hall(&rt, Some(words), &mut empty_hall(&rt)),
            places => start_host(&rt, words, places),
        },
        None => start_with_hall(&rt, None, &mut empty_hall(&rt)),
    };
    ExitCode::from(status)
}
