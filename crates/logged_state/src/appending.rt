// Appends the changes of requests to a log.
ghost use Rattle.std.specs.Prelude.{◌≡◌, ◌<◌, ◌-◌, ◌^◌, IfOk, OnOk, OnErr, IsErrOf, true};
ghost use Rattle.change_log.specs.LogContents.{next_number, with_change};
ghost use Rattle.change_log.specs.LogStates.{HasCause, FailsToAppend, kept_contents};
ghost use Rattle.change_log.specs.LogHistories.{settled_moment};
ghost use Rattle.change_log.specs.declared.change_log.AppendFault.{AppendFault};
ghost use Rattle.change_records.specs.Records.{IsRecordable, change_record};
ghost use Rattle.logged_state.specs.DurableAnswers.{FindsChange};

use change_log::{AppendFault, ChangeLog};
use change_records::change_record;
use http_wire::Request;
use std::alloc::Global;

/// Appends the change of a request, and returns its number. At `Ok` every restart finds it.
///
/// # Errors
/// After `Failed` a restart finds it or doesn't, until the next call that returns `Ok`; at
/// `NoMemory` nothing was done.
pub fn append_request<L: ChangeLog>(
    alloc: Global,
    log: &mut L,
    request: &Request,
) -> Result<u64, AppendFault>
    requires recordable { IsRecordable request.now }
    requires is_sound { L.sound log.old }
    requires begun { (L.state log.old).is_begun ≡ true }
    requires numbers_left { next_number (kept_contents (L.state log.old)) < 2 ^ 64 - 1 }
    ensures numbered { IfOk result
        (λ number. number ≡ next_number (kept_contents (L.state log.old))) }
    ensures appended { OnOk result ((L.state log.new).history.now ≡ settled_moment
        (with_change (change_record request.now) (kept_contents (L.state log.old)))) }
    ensures not_appended { OnErr result (FailsToAppend (change_record request.now)
        (L.state log.old).history.now (L.state log.new).history.now) }
    ensures no_memory { IsErrOf result AppendFault.NoMemory → log.new ≡ log.old }
    ensures cause { IsErrOf result AppendFault.Failed
        → HasCause (L.state log.old) (L.state log.new) }
    ensures any_moment { FindsChange (L.state log.old) request.now (L.state log.new) }
    ensures still_begun { (L.state log.new).is_begun ≡ true }
    ensures still_sound { L.sound log.new }
{
    let change = change_record(alloc, request)?;
    log.append(alloc, &change)
}
