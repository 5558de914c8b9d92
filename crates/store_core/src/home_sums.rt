//! What a user has stored besides a document, where the documents of one user are limited.
ghost use Rattle.std.specs.Prelude.{◌≡◌, ◌+◌, ◌≤◌, ◌&&◌, length, min, not, sum_by};
ghost use Rattle.std.specs.Prelude.{if◌then◌else◌};
ghost use Rattle.doc_names.specs.NameEquality.{same_home, same_id};
ghost use Rattle.store_core.specs.HomeLimits.{is_above};
ghost use Rattle.store_core.specs.declared.limits.TheConstants.{MAX_BYTE_LIMIT, MAX_DOCUMENT_BYTES};
ghost use Rattle.store_core.specs.inner.HomeSums.{others_at_home, refusal_from_sums, stored_len};

use crate::limits::Limits;
use crate::refusal::StoreRefusal;
use crate::step::Documents;
use doc_names::{DocId, Home};

/// The number of some documents, and the number of bytes that they have together, printed.
#[derive(Clone, Copy)]
pub(crate) struct HomeSums {
    pub(crate) documents: usize,
    pub(crate) bytes: u64,
}

// Whether two homes are one.
#[tactic(auto, using(crate::proofs::HomeKeys::home_eq_is_same_home))]
fn is_same_home(home: &Home, other: &Home) -> bool
    ensures exact { result ≡ same_home home.now other.now }
{
    home == other
}

// Whether a document is another one of a document's home.
fn is_other_at_home(doc: &DocId, other: &DocId) -> bool
    ensures exact { result
        ≡ (same_home doc.now.home other.now.home && not (same_id doc.now other.now)) }
{
    is_same_home(&doc.home, &other.home) && !doc.same(other)
}

// The sums with those of one more document, if it is another one of the home; at most the greatest
// numbers.
fn sums_with(sums: HomeSums, is_other: bool, len: usize) -> HomeSums
    ensures counts { result.documents
        ≡ min (sums.documents + (if is_other then 1 else 0)) usize.MAX }
    ensures adds_lengths { result.bytes ≡ min (sums.bytes + (if is_other then len else 0)) u64.MAX }
{
    if !is_other {
        return sums;
    }
    HomeSums {
        documents: sums.documents.saturating_add(1),
        bytes: sums.bytes.saturating_add(len as u64),
    }
}

/// The sums of the other documents of a document's home. All documents are looked at.
pub(crate) fn other_sums(documents: &Documents, doc: &DocId) -> HomeSums
    requires { sum_by stored_len documents.now.entries ≤ MAX_BYTE_LIMIT }
    ensures counts { result.documents ≡ length (others_at_home documents.now.entries doc.now) }
    ensures adds_lengths { result.bytes
        ≡ sum_by stored_len (others_at_home documents.now.entries doc.now) }
{
    let _count = documents.len();
    let mut sums = HomeSums {
        documents: 0,
        bytes: 0,
    };
    for (other, entry) in documents.iter() {
        sums = sums_with(sums, is_other_at_home(doc, other), entry.len);
    }
    sums
}

// Whether one document more than these would be too many.
#[tactic(auto, using(crate::proofs::HomeLemmas::full_is_above))]
fn is_full(limit: Option<usize>, others: usize) -> bool
    ensures exact { result ≡ is_above limit (others + 1) }
{
    match limit {
        Some(most) => others >= most,
        None => false,
    }
}

// Whether so many bytes are too many.
fn is_too_long(limit: Option<u64>, bytes: u64) -> bool
    ensures exact { result ≡ is_above limit bytes }
{
    match limit {
        Some(most) => bytes > most,
        None => false,
    }
}

/// The first reason against a document of `len` bytes, by the other documents of its home.
pub(crate) fn refusal_from_sums(
    limits: Limits,
    others: HomeSums,
    len: usize,
) -> Option<StoreRefusal>
    requires others_countable { others.bytes ≤ MAX_BYTE_LIMIT }
    requires is_short { len ≤ MAX_DOCUMENT_BYTES }
    ensures exact { result ≡ refusal_from_sums limits others.documents others.bytes len }
{
    if is_full(limits.home_documents, others.documents) {
        return Some(StoreRefusal::HomeTooMany);
    }
    let bytes = others.bytes + len as u64;
    if is_too_long(limits.home_bytes, bytes) {
        return Some(StoreRefusal::HomeFull(bytes));
    }
    None
}
