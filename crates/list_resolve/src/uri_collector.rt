//! Collects what a walk meets.
ghost use Rattle.std.specs.Prelude.{◌≡◌, ◌≤◌, ◌∷◌, [], chars, IfOk, OnOk, IfErr};
ghost use Rattle.list_resolve.specs.ElementPlaces.{contains_place};
ghost use Rattle.list_resolve.specs.Walks.{address, mark};
ghost use Rattle.list_resolve.specs.inner.WalkStates.{IsWalkFault, with_collected_item, empty_walk};
ghost use Rattle.list_resolve.specs.inner.WalkStates.{with_visited_place};

use crate::document_place::Place;
use crate::fault::{FlatError, FlatFault};
use indexmap::IndexSet;
use std::alloc::{AllocError, Global};
use std::marker::Model;
use xml_names::{List, Text};

/// The greatest number of references that a walk may meet.
pub(crate) const MARK_LIMIT: usize = 4096;

/// Collects the addresses of a walk, each once, counts its references, and records the places of
/// elements that need not be walked again.
#[derive(Drop)]
pub(crate) struct UriCollector {
    alloc: Global,
    uris: IndexSet<Text>,
    marks: usize,
    passed: IndexSet<Place>,
}

impl Model for UriCollector {
    ghost use Rattle.std.specs.Prelude.{◌≤◌};
    ghost use Rattle.list_resolve.specs.declared.uri_collector.TheConstants.{MARK_LIMIT};
    ghost use Rattle.list_resolve.specs.inner.WalkStates.{CollectorState, gathered_code};

    ghost Value = { CollectorState };

    ghost coded = { gathered_code };

    ghost view = { λ g. record {
      tally = record { uris = g.uris.keys; marks = g.marks };
      passed = g.passed.keys;
    } };

    ghost invariant = { λ g. g.marks ≤ MARK_LIMIT };
}

impl UriCollector {
    /// An empty collector. Does not allocate; what is added later is allocated by `alloc`.
    pub(crate) fn new(alloc: Global) -> UriCollector
        ensures holds_nothing { result ≡ empty_walk }
    {
        UriCollector {
            alloc,
            uris: IndexSet::new(alloc),
            marks: 0,
            passed: IndexSet::new(alloc),
        }
    }

    /// Adds an address, unless it is there already.
    ///
    /// # Errors
    /// `AllocError` when out of memory.
    pub(crate) fn add_uri(&mut self, uri: &str) -> Result<(), AllocError>
        ensures ok { OnOk result
            (self.new ≡ with_collected_item self.old (address (chars uri.now))) }
    {
        let uri = Text::from(self.alloc, uri)?;
        self.uris.insert(uri)?;
        Ok(())
    }

    /// Counts a reference.
    ///
    /// # Errors
    /// `TooWide` exactly where there are too many then.
    pub(crate) fn add_mark(&mut self) -> Result<(), FlatError>
        ensures ok { OnOk result (self.new ≡ with_collected_item self.old mark) }
        ensures err_too_many { IfErr result (IsWalkFault (mark ∷ []) self.old.tally) }
    {
        if self.marks == MARK_LIMIT {
            return Err(FlatError::Fault(FlatFault::TooWide));
        }
        self.marks += 1;
        Ok(())
    }

    /// The number of references so far. Does not allocate.
    pub(crate) fn marks(&self) -> usize
        ensures exact { result ≡ self.now.tally.marks }
    {
        self.marks
    }

    /// Records the place of an element that need not be walked again.
    ///
    /// # Errors
    /// `AllocError` when out of memory.
    pub(crate) fn record_passed(&mut self, place: Place) -> Result<(), AllocError>
        ensures ok { OnOk result (self.new ≡ with_visited_place self.old place) }
    {
        self.passed.insert(place)?;
        Ok(())
    }

    /// Whether the element at a place need not be walked again. Does not allocate.
    pub(crate) fn has_passed(&self, place: &Place) -> bool
        ensures exact { result ≡ contains_place self.now.passed place.now }
    {
        self.passed.contains(place)
    }

    /// The addresses, in the order in which they were first met.
    ///
    /// # Errors
    /// `AllocError` when out of memory.
    pub(crate) fn into_uris(self) -> Result<List<Text>, AllocError>
        ensures addresses_in_order { IfOk result (λ made. made ≡ self.tally.uris) }
        ensures gathered_few_marks { self.tally.marks ≤ MARK_LIMIT }
    {
        let UriCollector { alloc, uris, .. } = self;
        let made = uris.into_iter().collect(alloc)?;
        Ok(List::from(made))
    }
}
