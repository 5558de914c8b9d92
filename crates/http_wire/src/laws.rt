// Laws of the definitions that the contracts cite.
ghost use Rattle.std.specs.Prelude.{◌≡◌, ◌↔◌, ◌++◌, true, List, ℕ};
ghost use Rattle.xcap_io.specs.ConnectionHistories.{Traffic};
ghost use Rattle.http_wire.specs.ConnectionItems.{Item, IsFirstItem, IsKnownFirstItem};
ghost use Rattle.http_wire.specs.ConnectionItems.{HaveEqualRests, IsItemSequence};
ghost use Rattle.http_wire.specs.ConnectionItems.{IsCompleteItem};
ghost use Rattle.http_wire.specs.ConnectionItems.{HasNoCompleteItem};
ghost use Rattle.http_wire.specs.ServedConnections.{AreAllBytesOf};

/// A law: a connection's bytes have one first item, and after a request one rest; so they have one
/// sequence of items, and it doesn't matter how reads cut them.
pub fn bytes_have_one_item_sequence()
    ensures first_item_unique { (before : ℕ) (bytes rest other : List ℕ) (x y : Item)
        → IsFirstItem before bytes x rest
        → IsFirstItem before bytes y other → (x ≡ y) × HaveEqualRests x rest other }
    ensures sequences_agree { (before : ℕ) (bytes : List ℕ) (xs ys : List Item)
        → IsItemSequence before bytes xs → IsItemSequence before bytes ys → xs ≡ ys }
{}

/// A law: an item that is complete in some bytes is the first item whatever follows them, and
/// unfinished bytes have no complete item.
pub fn complete_items_stay_first()
    ensures whole_item_first { (before : ℕ) (bytes more : List ℕ) (item : Item)
        → IsCompleteItem before bytes item
        → (rest : List ℕ) × IsFirstItem before (bytes ++ more) item rest }
    ensures unfinished_not_whole { (before : ℕ) (bytes : List ℕ) (item : Item)
        → HasNoCompleteItem bytes
        → ¬ (IsCompleteItem before bytes item) }
{}

/// A law: where all bytes of a connection are known, those given and those left, of which there
/// are none where a read found the end, the first item of the bytes given is the first item of
/// all. Where all were given, it is the first item and no other.
pub fn given_bytes_determine_first_item()
    ensures of_all { (before : ℕ) (bytes : List ℕ) (passed : Traffic) (item : Item)
        → AreAllBytesOf bytes passed
        → IsKnownFirstItem before passed.given passed.ended item → (rest : List ℕ)
        × IsFirstItem before bytes item rest }
    ensures all_given { (before : ℕ) (bytes : List ℕ) (item : Item)
        → IsKnownFirstItem before bytes true item
        ↔ ((rest : List ℕ) × IsFirstItem before bytes item rest) }
{}
