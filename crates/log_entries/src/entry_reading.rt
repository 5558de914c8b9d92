// Reads entries.
ghost use Rattle.std.specs.Prelude.{◌≡◌, ◌+◌, ◌≤◌, take, drop, length, Option, option_map};
ghost use Rattle.std.specs.Int.{w32, w64, from_be_bytes};
ghost use Rattle.log_entries.specs.Entries.{Entry, entry_at, entry_of_length, has_entry};

use crate::checksums::checksum;

fn read_u32(bytes: &[u8]) -> u32
    requires { 4 ≤ length bytes.now }
    ensures exact { result ≡ from_be_bytes w32 (take 4 bytes.now) }
{
    u32::from_be_bytes([bytes[0], bytes[1], bytes[2], bytes[3]])
}

fn read_u64(bytes: &[u8]) -> u64
    requires { 8 ≤ length bytes.now }
    ensures exact { result ≡ from_be_bytes w64 (take 8 bytes.now) }
{
    u64::from_be_bytes([
        bytes[0], bytes[1], bytes[2], bytes[3], bytes[4], bytes[5], bytes[6], bytes[7],
    ])
}

fn entry_of_length<'a>(mark: &[u8], bytes: &'a [u8], len: u32) -> Option<(u64, &'a [u8], &'a [u8])>
    requires { 28 ≤ length bytes.now }
    ensures exact { option_map
        (λ x. (record { number = x.0; content = x.1.now }, x.2.now)) result
        ≡ entry_of_length mark.now bytes.now len }
{
    let len = 28 + len as usize;
    if bytes.len() < len {
        return None;
    }
    let body = &bytes[20..len];
    if checksum(mark, body) != read_u64(&bytes[12..]) {
        return None;
    }
    Some((read_u64(body), &body[8..], &bytes[len..]))
}

/// The number and the content of the entry that is whole at the front of the bytes, and the bytes
/// after it. Does not allocate.
#[tactic(auto, unfolding(crate::specs::Entries::entry_at))]
pub fn entry_at<'a>(mark: &[u8], bytes: &'a [u8]) -> Option<(u64, &'a [u8], &'a [u8])>
    ensures exact { option_map
        (λ x. (record { number = x.0; content = x.1.now }, x.2.now)) result
        ≡ entry_at mark.now bytes.now }
{
    if bytes.len() < 28 {
        return None;
    }
    if &bytes[..8] != mark {
        return None;
    }
    entry_of_length(mark, bytes, read_u32(&bytes[8..]))
}

/// Whether an entry begins anywhere in the bytes. Does not allocate.
pub fn has_entry(mark: &[u8], bytes: &[u8]) -> bool
    ensures exact { result ≡ has_entry mark.now bytes.now }
{
    let mut rest = bytes;
    while let [_, after @ ..] = rest {
        if entry_at(mark, rest).is_some() {
            return true;
        }
        rest = after;
    }
    false
}
