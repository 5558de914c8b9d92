//! The form of blocks is read in one way.
ghost use Rattle.std.specs.Prelude.{◌≡◌, ℕ, ◌<◌, ◌^◌, ◌++◌, List, Some, length};
ghost use Rattle.byte_blocks.specs.Blocks.{AreBytes, block, block_at};

/// A law: a block is read again, whatever comes after it; and what a block is read from begins
/// with that block.
pub fn blocks_have_one_form()
    ensures read_back { (bytes rest : List ℕ) → length bytes < 2 ^ 32
        → block_at (block bytes ++ rest) ≡ Some (bytes, rest) }
    ensures one_form { (all bytes rest : List ℕ) → AreBytes all
        → block_at all ≡ Some (bytes, rest) → all ≡ block bytes ++ rest }
    ensures short { (all bytes rest : List ℕ) → AreBytes all
        → block_at all ≡ Some (bytes, rest) → length bytes < 2 ^ 32 }
{}
