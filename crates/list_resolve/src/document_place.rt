//! Places of elements in one user's documents of lists.
ghost use Rattle.std.specs.Prelude.{◌≡◌};
ghost use Rattle.list_resolve.specs.ElementPlaces.{same_place};

use std::hash::{Hash, Hasher};
use xml_names::Text;
use xml_tree::Path;

/// The name of a document, and the path of an element in it.
#[derive(Drop)]
pub(crate) struct Place {
    pub(crate) name: Text,
    pub(crate) path: Path,
}

impl Place {
    /// Whether two places are equal. Does not allocate.
    pub(crate) fn same(&self, other: &Place) -> bool
        ensures exact { result ≡ same_place self.now other.now }
    {
        self.name == other.name && self.path.numbers() == other.path.numbers()
    }
}

impl PartialEq for Place {
    ghost use Rattle.std.specs.Cmp.{partial_equiv_from_equiv};
    ghost use Rattle.list_resolve.specs.ElementPlaces.{same_place};
    ghost use Rattle.list_resolve.specs.inner.PlaceTests.{places_equiv};

    ghost eq = { same_place };

    ghost laws = { partial_equiv_from_equiv places_equiv };

    fn eq(&self, other: &Place) -> bool {
        self.same(other)
    }
}

impl Eq for Place {
    ghost use Rattle.list_resolve.specs.inner.PlaceTests.{places_equiv};

    ghost laws = { places_equiv };
}

impl Hash for Place {
    ghost use Rattle.list_resolve.specs.inner.PlaceCodes.{place_hash_input};
    ghost use Rattle.list_resolve.specs.inner.PlaceTests.{places_fed};

    ghost hash_input = { place_hash_input };

    ghost respects_eq = { places_fed };

    fn hash<H: Hasher>(&self, state: &mut H) {
        self.name.hash(state);
        self.path.numbers().hash(state);
    }
}
