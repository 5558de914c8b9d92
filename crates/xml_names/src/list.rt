//! Lists, which contracts see as the list of their items.
ghost use Rattle.std.specs.Prelude.{◌≡◌, ◌++◌, ◌∷◌, [], OnOk, OnErr};

use std::alloc::{AllocError, Global};
use std::marker::Model;

/// A vector whose capacity and place in memory contracts don't see.
#[derive(Drop)]
pub struct List<T> {
    items: Vec<T>,
}

impl<T> Model for List<T> {
    ghost use Rattle.std.specs.Prelude.{List as Items};
    ghost use Rattle.std.specs.Coded.{coded_list};

    ghost Value = { Items T };

    ghost coded = { coded_list T.code };

    ghost view = { λ l. l.items.items };
}

impl<T> List<T> {
    /// The empty list. Does not allocate.
    pub fn empty(alloc: Global) -> List<T>
        ensures holds_no_items { result ≡ [] }
    {
        List {
            items: Vec::new(alloc),
        }
    }

    /// The items of a vector, which are not copied. Does not allocate.
    pub fn from(items: Vec<T>) -> List<T>
        ensures exact { result ≡ items.items }
    {
        List { items }
    }

    /// The items, borrowed. Does not allocate.
    pub fn as_slice(&self) -> &[T]
        ensures exact { result.now ≡ self.now }
    {
        self.items.as_slice()
    }

    /// The vector of the items. Does not allocate.
    pub fn into_vec(self) -> Vec<T>
        ensures same_items { result.items ≡ self }
    {
        let List { items } = self;
        items
    }

    /// Appends an item.
    ///
    /// # Errors
    /// `AllocError` when out of memory; the list is then unchanged.
    pub fn push(&mut self, item: T) -> Result<(), AllocError>
    where
        T: Drop,
        ensures appended { OnOk result (self.new ≡ self.old ++ item ∷ []) }
        ensures err_unchanged { OnErr result (self.new ≡ self.old) }
    {
        self.items.push(item)?;
        Ok(())
    }
}
