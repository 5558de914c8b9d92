// The clock.
use std::time::{Clock, Instant};

/// `clock_gettime`: the present moment of the monotonic clock; None where it can't be read.
pub fn now<C: Clock>(clock: &C) -> Option<Instant> {
    Instant::now(clock).ok()
}
