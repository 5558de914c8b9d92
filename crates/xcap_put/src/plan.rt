//! The plan of a request on a node, before the store is asked (RFC 4825, sections 8.2 and 8.4).
ghost use Rattle.std.specs.Prelude.{IfOk};
ghost use Rattle.xcap_put.specs.inner.RequestPlans.{IsPlanFromResult};

use crate::refusal_replies::unplanned;
use edit_ops::Change;
use edit_plans::EditRefusal;
use reply_text::Reply;
use std::alloc::{AllocError, Global};

/// The change that the store is asked for; `exists` where the node that is written is there
/// already.
#[derive(Drop)]
pub(crate) struct PlannedChange {
    pub(crate) change: Change,
    pub(crate) exists: bool,
}

/// The plan of a request on a node: the change that the store is asked for, or the reply without
/// a change.
pub(crate) type Plan = Result<PlannedChange, Reply>;

/// The plan of a planned change, or of the reason why there is none.
pub(crate) fn plan_from_result(
    alloc: Global,
    planned: Result<Change, EditRefusal>,
    exists: bool,
    closes: bool,
) -> Result<Plan, AllocError>
    ensures exact_plan { IfOk result (λ plan. IsPlanFromResult planned exists closes plan) }
{
    match planned {
        Ok(change) => Ok(Ok(PlannedChange { change, exists })),
        Err(why) => {
            let reply = unplanned(alloc, why, closes)?;
            Ok(Err(reply))
        }
    }
}
