// Blocks of bytes.
ghost use Rattle.std.specs.Prelude.{◌≡◌, ◌≤◌, ◌<◌, ◌^◌, ◌++◌, length, OnOk, option_map};
ghost use Rattle.byte_blocks.specs.Blocks.{block, block_at, split_at, stated_length};

use std::alloc::AllocError;

/// Appends the block of these bytes.
///
/// # Errors
/// When out of memory.
#[tactic(auto, unfolding(crate::specs::Blocks::block))]
pub fn append_block(made: &mut Vec<u8>, bytes: &[u8]) -> Result<(), AllocError>
    requires short { length bytes.now < 2 ^ 32 }
    ensures appended { OnOk result (made.new.items ≡ made.old.items ++ block bytes.now) }
{
    made.extend_from_slice(&(bytes.len() as u32).to_be_bytes())?;
    made.extend_from_slice(bytes)?;
    Ok(())
}

fn stated_len(bytes: &[u8]) -> usize
    requires { 4 ≤ length bytes.now }
    ensures exact { result ≡ stated_length bytes.now }
{
    u32::from_be_bytes([bytes[0], bytes[1], bytes[2], bytes[3]]) as usize
}

fn split_at(bytes: &[u8], len: usize) -> Option<(&[u8], &[u8])>
    ensures exact { option_map (λ x. (x.0.now, x.1.now)) result ≡ split_at len bytes.now }
{
    if bytes.len() < len {
        return None;
    }
    Some((&bytes[..len], &bytes[len..]))
}

/// What the block at the front holds, and the bytes after it. Does not allocate.
#[tactic(auto, unfolding(crate::specs::Blocks::block_at))]
pub fn block_at(bytes: &[u8]) -> Option<(&[u8], &[u8])>
    ensures exact { option_map (λ x. (x.0.now, x.1.now)) result ≡ block_at bytes.now }
{
    if bytes.len() < 4 {
        return None;
    }
    split_at(&bytes[4..], stated_len(bytes))
}
