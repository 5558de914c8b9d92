//! Exact reservations for what an element is going to have; a growing vector would reserve more.
ghost use Rattle.std.specs.Prelude.{◌≡◌};

use crate::tree::Element;
use std::alloc::AllocError;

impl Element {
    /// Reserves capacity for `more` attributes, and for no others. The element is unchanged.
    ///
    /// # Errors
    /// `AllocError` when out of memory.
    pub fn reserve_attrs(&mut self, more: usize) -> Result<(), AllocError>
        ensures changes_nothing { self.new ≡ self.old }
    {
        self.attrs.reserve_exact(more)
    }

    /// Reserves capacity for one more node, and for no others. The element is unchanged.
    ///
    /// # Errors
    /// `AllocError` when out of memory.
    pub fn reserve_node(&mut self) -> Result<(), AllocError>
        ensures changes_nothing { self.new ≡ self.old }
    {
        self.nodes.reserve_exact(1)
    }
}
