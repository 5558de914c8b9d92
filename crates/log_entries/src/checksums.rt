// The checksum of an entry.
ghost use Rattle.std.specs.Prelude.{◌≡◌};
ghost use Rattle.log_entries.specs.Checksums.{checksum};

use std::hash::{DefaultHasher, Hasher};

/// The checksum of the bytes, with the file's mark as its key.
#[tactic(auto, unfolding(crate::specs::Checksums::checksum))]
pub(crate) fn checksum(key: &[u8], bytes: &[u8]) -> u64
    ensures exact { result ≡ checksum key.now bytes.now }
{
    let mut hasher = DefaultHasher::new();
    hasher.write(key);
    hasher.write(bytes);
    hasher.finish()
}
