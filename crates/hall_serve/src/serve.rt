//! The loop over the connections of a hall.
ghost use Rattle.std.specs.Prelude.{◌≡◌, ℕ, ◌+◌, ◌-◌, ◌*◌, ◌≤◌, List, length};
ghost use Rattle.http_serve.specs.ReplyBytes.{StepsInBytes};
ghost use Rattle.hall_serve.specs.Exchanges.{Exchange};
ghost use Rattle.hall_serve.specs.Seats.{MatchesSeats, requests_left};
ghost use Rattle.hall_serve.specs.ServedHalls.{AnswersKnocks, HasHallStop, HasServed, MakesTurns};
ghost use Rattle.hall_serve.specs.ServedHalls.{ServesOn};

use crate::seats::Seats;
use crate::turns::{Turn, make_turn};
use halls::Hall;
use http_serve::Machine;
use watchers::Watchers;

/// Why no further turn was made.
#[derive(Clone, Copy, PartialEq, Eq)]
pub enum HallStop {
    /// The wanted number of connections began, and all were closed.
    Count,
    /// No connection is open, and none is to come.
    Over,
    /// A wait or an accept failed, and the hall's fault counter rose.
    HallFailed,
    /// The wanted number of turns were made.
    Turns,
}

/// What was served in a hall.
#[derive(Clone, Copy, PartialEq, Eq)]
pub struct HallSummary {
    /// The number of connections that began.
    pub connections: u64,
    /// In how many turns nothing was done for an open connection when out of memory.
    pub memory_failures: u64,
    pub stop: HallStop,
}

/// Serves the connections of a hall, of which at most `count` more begin, in at most `turns` turns.
pub fn serve_hall<M: Machine, H: Hall, W: Watchers<M::Edit>>(
    machine: &mut M,
    hall: &mut H,
    watchers: &mut W,
    seats: &mut Seats,
    count: u64,
    turns: u64,
) -> HallSummary
    requires seats_match { MatchesSeats (H.state hall.old) seats.old }
    requires room_left { M.takes machine.old (requests_left seats.old + count * 1000) }
    ensures same_number { length seats.new ≡ length seats.old }
    ensures seats_match { MatchesSeats (H.state hall.new) seats.new }
    ensures serves_on { (all : List (Exchange M.Edit)) → HasServed (H.state hall.old) seats.old all
        → ServesOn (StepsInBytes M.steps) W.keeps all result.memory_failures
        (record {
          machine = machine.old;
          hall = H.state hall.old;
          seats = seats.old;
          watchers = watchers.old;
        })
        (record {
          machine = machine.new;
          hall = H.state hall.new;
          seats = seats.new;
          watchers = watchers.new;
        }) }
    ensures turns { (made : ℕ) × MakesTurns W.keeps
        (length (H.state hall.old).connections + count) made
        (record {
          machine = machine.old;
          hall = H.state hall.old;
          seats = seats.old;
          watchers = watchers.old;
        })
        (record {
          machine = machine.new;
          hall = H.state hall.new;
          seats = seats.new;
          watchers = watchers.new;
        }) }
    ensures at_most { result.connections ≤ count }
    ensures knocks { AnswersKnocks (H.state hall.old) (H.state hall.new) }
    ensures connections { length (H.state hall.new).connections
        ≡ length (H.state hall.old).connections + result.connections }
    ensures stop { HasHallStop result.stop count result.connections turns (H.state hall.old)
        (H.state hall.new) }
    ensures same_listening { (H.state hall.new).listening ≡ (H.state hall.old).listening }
    ensures room_left { M.takes machine.new
        (requests_left seats.new + (count - result.connections) * 1000) }
{
    let mut connections = 0;
    let mut memory_failures = 0;
    'turns: for _turn in 0..turns {
        if connections == count && seats.are_free() {
            return HallSummary {
                connections,
                memory_failures,
                stop: HallStop::Count,
            };
        }
        match make_turn(machine, hall, watchers, seats, connections < count) {
            Turn::Went => (),
            Turn::Began => connections += 1,
            Turn::NoMemory => memory_failures += 1,
            Turn::Over => {
                return HallSummary {
                    connections,
                    memory_failures,
                    stop: HallStop::Over,
                };
            }
            Turn::HallFailed => {
                return HallSummary {
                    connections,
                    memory_failures,
                    stop: HallStop::HallFailed,
                };
            }
        }
    }
    HallSummary {
        connections,
        memory_failures,
        stop: HallStop::Turns,
    }
}
