// Parsers of the parts of a record: numbers, lengths and blocks, in bytes that may break off.
ghost use Rattle.std.specs.Prelude.{◌≡◌, ◌+◌, ◌≤◌, ◌<◌, ◌^◌, slice_index_or, length, take, drop};
ghost use Rattle.std.specs.Prelude.{IsTrue, ◌↔◌};
ghost use Rattle.httparse.specs.Grammar.{is_token_byte, AllPass};
ghost use Rattle.edit_journal.specs.inner.RecordParts.{ReadsPart, IsU32Between, IsU16Between};
ghost use Rattle.edit_journal.specs.inner.RecordParts.{IsBlockOfLength, IsTokenBlock};
ghost use Rattle.edit_journal.specs.inner.RecordParts.{padded_u32};
ghost use Rattle.edit_journal.specs.inner.RecordParts.{padded_u16};

/// Why no part was read.
#[derive(Clone, Copy, PartialEq, Eq)]
pub(crate) enum FieldError {
    /// The bytes break off within the part.
    Open,
    /// The bytes aren't such a part, and no further bytes can make them one.
    Wrong,
    /// Out of memory.
    NoMemory,
}

// The byte at this offset, or `lacking` after the end of the bytes.
fn byte_or(bytes: &[u8], at: usize, lacking: u8) -> u8
    ensures exact { result ≡ slice_index_or bytes.now at lacking }
{
    match bytes.get(at) {
        Some(byte) => *byte,
        None => lacking,
    }
}

fn padded_u32(bytes: &[u8], lacking: u8) -> usize
    ensures exact { result ≡ padded_u32 bytes.now lacking }
{
    let high = byte_or(bytes, 0, lacking) as usize * 16_777_216
        + byte_or(bytes, 1, lacking) as usize * 65_536;
    high + byte_or(bytes, 2, lacking) as usize * 256 + byte_or(bytes, 3, lacking) as usize
}

/// The length in bytes of the record at the front of the bytes.
pub(crate) fn record_len(bytes: &[u8]) -> usize
    ensures exact { result ≡ 4 + padded_u32 bytes.now 0 }
{
    4 + padded_u32(bytes, 0)
}

fn padded_u16(bytes: &[u8], lacking: u8) -> usize
    ensures exact { result ≡ padded_u16 bytes.now lacking }
{
    byte_or(bytes, 0, lacking) as usize * 256 + byte_or(bytes, 1, lacking) as usize
}

/// A number in four bytes, between two bounds.
#[tactic(auto, using(crate::proofs::Numbers::numbers))]
pub(crate) fn read_u32(bytes: &[u8], least: usize, most: usize) -> Result<usize, FieldError>
    requires nonempty { least ≤ most }
    requires fits { most < 2 ^ 32 }
    ensures reads_rule { ReadsPart (λ n. n) (IsU32Between least most) bytes.now result }
{
    if padded_u32(bytes, 255) < least || padded_u32(bytes, 0) > most {
        return Err(FieldError::Wrong);
    }
    if bytes.len() < 4 {
        return Err(FieldError::Open);
    }
    Ok(padded_u32(bytes, 0))
}

/// A number in two bytes, between two bounds.
#[tactic(auto, using(crate::proofs::Numbers::numbers))]
pub(crate) fn read_u16(bytes: &[u8], least: usize, most: usize) -> Result<usize, FieldError>
    requires nonempty { least ≤ most }
    requires fits { most < 2 ^ 16 }
    ensures reads_rule { ReadsPart (λ n. n) (IsU16Between least most) bytes.now result }
{
    if padded_u16(bytes, 255) < least || padded_u16(bytes, 0) > most {
        return Err(FieldError::Wrong);
    }
    if bytes.len() < 2 {
        return Err(FieldError::Open);
    }
    Ok(padded_u16(bytes, 0))
}

// The bytes without the first `count` ones.
pub(crate) fn bytes_after(bytes: &[u8], count: usize) -> &[u8]
    requires { count ≤ length bytes.now }
    ensures exact { result.now ≡ drop count bytes.now }
{
    &bytes[count..]
}

// The first `count` bytes, or all where there are fewer.
fn first_bytes(bytes: &[u8], count: usize) -> &[u8]
    ensures exact { result.now ≡ take count bytes.now }
{
    &bytes[..count.min(bytes.len())]
}

/// A length between two bounds, and that many bytes.
pub(crate) fn read_block(bytes: &[u8], least: usize, most: usize) -> Result<&[u8], FieldError>
    requires nonempty { least ≤ most }
    requires fits { most < 2 ^ 32 }
    ensures reads_rule { ReadsPart (λ piece. piece.now) (IsBlockOfLength least most) bytes.now
        result }
{
    let len = read_u32(bytes, least, most)?;
    let piece = first_bytes(bytes_after(bytes, 4), len);
    if piece.len() < len {
        return Err(FieldError::Open);
    }
    Ok(piece)
}

#[tactic(auto, unfolding(httparse::specs::Grammar::is_token_byte))]
fn is_token_byte(byte: u8) -> bool
    ensures exact { result ≡ is_token_byte byte }
{
    byte.is_ascii_alphanumeric() || b"!#$%&'*+-.^_`|~".contains(&byte)
}

fn are_token_bytes(bytes: &[u8]) -> bool
    ensures exact { IsTrue result ↔ AllPass is_token_byte bytes.now }
{
    bytes.iter().all(|byte| is_token_byte(*byte))
}

/// A length between two bounds, of which the lower one isn't 0, and a token of that many bytes.
pub(crate) fn read_token(bytes: &[u8], least: usize, most: usize) -> Result<&[u8], FieldError>
    requires positive_least { 0 < least }
    requires nonempty { least ≤ most }
    requires fits { most < 2 ^ 32 }
    ensures reads_rule { ReadsPart (λ piece. piece.now) (IsTokenBlock least most) bytes.now result }
{
    let len = read_u32(bytes, least, most)?;
    let piece = first_bytes(bytes_after(bytes, 4), len);
    if !are_token_bytes(piece) {
        return Err(FieldError::Wrong);
    }
    if piece.len() < len {
        return Err(FieldError::Open);
    }
    Ok(piece)
}
