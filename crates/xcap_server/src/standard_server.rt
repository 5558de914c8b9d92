//! The trait of servers that follow the standards, whose own addresses are a parameter.
ghost use Rattle.std.specs.Prelude.{◌≡◌, ℕ, List, Option};
ghost use Rattle.http_wire.specs.declared.request.Request.{Request};
ghost use Rattle.reply_text.specs.ReplyHeads.{SentReply};
ghost use Rattle.edit_ops.specs.declared.edit.Edit.{Edit as TheEdit};
ghost use Rattle.store_core.specs.State.{State};
ghost use Rattle.xcap_machine.specs.Machine.{StandardStepWith};
ghost use Rattle.http_serve.specs.ServedPorts.{ServesPort};
ghost use Rattle.http_serve.specs.ReplyBytes.{StepsInBytes};

use edit_ops::Edit;
use http_serve::ServeSummary;
use watchers::Watchers;
use xcap_io::Port;

/// A server that answers as the standards say (RFC 4825 and 4826). What it answers at addresses of
/// its own is up to the implementation.
pub trait StandardServer {
    /// Its root.
    ghost root: { Self → List ℕ };

    /// It has the documents of this state.
    ghost represents: { Self → State → Type 0 };

    /// Relates the root, a state, a request, the reply, the state after it, and the edit: what
    /// else holds of each step, and so what its own addresses are answered.
    ghost own_step: { List ℕ → State → Request → SentReply → State → Option TheEdit → Type 0 };

    /// Serves the next connections of a port, at most `count`, one after the other: each request
    /// is read and answered, watchers are notified where it made a change, and the reply is
    /// written, in this order, until a reply closes the connection, its bytes end, or a read or a
    /// write fails.
    fn serve_port<P: Port, W: Watchers<Edit>>(
        &mut self,
        port: &mut P,
        count: u64,
        watchers: &mut W,
    ) -> ServeSummary
        ensures serves_port { (m : State) → represents self.old m
            → (next : State) × represents self.new next
            × ServesPort (StepsInBytes (StandardStepWith own_step (root self.old))) W.keeps
            (record { most = count; served = result })
            (record { machine = m; stream = P.state port.old; watchers = watchers.old })
            (record { machine = next; stream = P.state port.new; watchers = watchers.new }) }
        ensures same_root { root self.new ≡ root self.old };
}
