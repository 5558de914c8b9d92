// Laws of what a server served.
ghost use Rattle.std.specs.Prelude.{◌≡◌, ◌++◌, ℕ, List, Some};
ghost use Rattle.store_core.specs.State.{State};
ghost use Rattle.xcap_io.specs.StreamTraffic.{HasNothingAfterEnd};
ghost use Rattle.http_wire.specs.ServedConnections.{AreAllBytesOfEach, ServesConnection};
ghost use Rattle.http_wire.specs.ServedConnections.{ServesEach, counted_traffic};
ghost use Rattle.http_wire.specs.ServedConnections.{counted_traffics};
ghost use Rattle.http_serve.specs.ServedStreams.{ServesStream};
ghost use Rattle.http_serve.specs.FixedReplies.{fixed_reply};
ghost use Rattle.http_serve.specs.ServedPorts.{ServeOutcome, ServesPort};
ghost use Rattle.http_serve.specs.ServingStates.{ServingState};
ghost use Rattle.http_wire.specs.declared.close_reason.CloseReason.{CloseReason};
ghost use Rattle.xcap_machine.specs.Machine.{ValidStep};
ghost use Rattle.http_serve.specs.ReplyBytes.{StepsInBytes};

use edit_ops::Edit;
use watchers::Watchers;

/// Where a stream knows all bytes of its connection, as a stream in memory does, they count as if
/// all had been given: the bytes taken are the replies to the items of all bytes, and it doesn't
/// matter which of them were read. Where a read failed, the bytes given before it count. This also
/// holds of each connection of a port that knows the bytes of the connections to come.
pub fn all_bytes_count<W: Watchers<Edit>>()
    ensures one_stream_bytes { (root : List ℕ) (ended : CloseReason)
        (old new : ServingState State W) (bytes : List ℕ)
        → old.stream.inward.left ≡ Some bytes → HasNothingAfterEnd old.stream.inward
        → (served : ServesStream (StepsInBytes (ValidStep root)) W.keeps ended old new)
        → ServesConnection (StepsInBytes (ValidStep root)) fixed_reply ended old.machine
        (counted_traffic ended bytes served.passed) new.machine served.edits }
    ensures each_connection_bytes { (root : List ℕ) (outcome : ServeOutcome)
        (old new : ServingState State W) (all : List (List ℕ))
        → old.stream.port.to_come ≡ Some all
        → (served : ServesPort (StepsInBytes (ValidStep root)) W.keeps outcome old new)
        → (came : List (List ℕ)) × (rest : List (List ℕ)) × (all ≡ came ++ rest)
        × (new.stream.port.to_come ≡ Some rest)
        × AreAllBytesOfEach came served.connections
        × ServesEach (StepsInBytes (ValidStep root)) fixed_reply old.machine
        (counted_traffics served.connections came served.serves.endings) served.serves.endings
        new.machine served.edits }
{}
