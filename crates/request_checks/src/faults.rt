//! Why condition fields can't be read.
ghost use Rattle.std.specs.Prelude.{◌≡◌};
ghost use Rattle.request_checks.specs.declared.faults.ConditionFault.TheVariants as faults;

use std::alloc::AllocError;

/// Why condition fields can't be read.
#[derive(Clone, Copy, Drop, PartialEq, Eq)]
pub enum ConditionFault {
    /// A field is neither `*` nor a list of at least one entity tag.
    BadCondition,
    /// Out of memory.
    NoMemory,
}

impl From<AllocError> for ConditionFault {
    ghost from_gives = { λ _ e. e ≡ faults.NoMemory };

    fn from(_error: AllocError) -> Self {
        ConditionFault::NoMemory
    }
}
