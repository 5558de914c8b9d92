//! The accept loop: the connections of a port, served one after the other.
ghost use Rattle.std.specs.Prelude.{◌*◌};
ghost use Rattle.http_serve.specs.ServedPorts.{ServesPort};
ghost use Rattle.http_serve.specs.ReplyBytes.{StepsInBytes};

use crate::connection::serve_stream;
use crate::connection_buffers::ConnectionBuffers;
use crate::machine::Machine;
use http_wire::CloseReason;
use watchers::Watchers;
use xcap_io::{Failed, Line, Port};

/// Why no further connection was served.
#[derive(Clone, Copy, PartialEq, Eq)]
pub enum StopReason {
    /// The wanted number was served.
    Count,
    /// No more connections will come.
    NoMore,
    /// Accepting the next connection failed, and the port's fault counter rose.
    PortFailed,
}

/// What was served on a port.
#[derive(Clone, Copy, PartialEq, Eq)]
pub struct ServeSummary {
    /// The number of connections.
    pub connections: u64,
    /// How the last of them ended; `Closed` where there was none.
    pub last: CloseReason,
    pub stop: StopReason,
}

/// Serves at most `count` connections of a port, one after the other.
pub fn serve_streams<M: Machine, P: Port, W: Watchers<M::Edit>>(
    machine: &mut M,
    buffers: &mut ConnectionBuffers,
    port: &mut P,
    count: u64,
    watchers: &mut W,
) -> ServeSummary
    requires room_left { M.takes machine.old (count * 1000) }
    ensures serves_port { ServesPort (StepsInBytes M.steps) W.keeps
        (record { most = count; served = result })
        (record { machine = machine.old; stream = P.state port.old; watchers = watchers.old })
        (record { machine = machine.new; stream = P.state port.new; watchers = watchers.new }) }
{
    let mut connections = 0;
    let mut last = CloseReason::Closed;
    'connections: while connections < count {
        let begun = match port.next() {
            Ok(begun) => begun,
            Err(Failed) => {
                return ServeSummary {
                    connections,
                    last,
                    stop: StopReason::PortFailed,
                };
            }
        };
        if !begun {
            return ServeSummary {
                connections,
                last,
                stop: StopReason::NoMore,
            };
        }
        last = serve_stream(machine, buffers, port, watchers);
        connections += 1;
    }
    ServeSummary {
        connections,
        last,
        stop: StopReason::Count,
    }
}
