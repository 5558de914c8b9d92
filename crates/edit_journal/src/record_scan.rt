// What is at the front of a journal's bytes.
ghost use Rattle.std.specs.Prelude.{IfOk};
ghost use Rattle.edit_journal.specs.inner.RecordScans.{IsRecordScan};

use crate::field_parsers::{FieldError, record_len};
use crate::record_parser::read_record;
use http_wire::Request;
use std::alloc::{AllocError, Global};

/// What is at the front of some bytes.
#[derive(Drop)]
pub(crate) enum RecordScan {
    /// A complete record, of this request, and its length in bytes.
    Whole(Request, usize),
    /// A record that isn't complete, or nothing.
    Torn,
    /// Bytes that begin no record.
    Damaged,
}

/// Scans for a record at the front of the bytes; exactly one of the three results applies.
#[tactic(auto, using(crate::proofs::Fronts::fronts))]
pub(crate) fn scan_record(alloc: Global, bytes: &[u8]) -> Result<RecordScan, AllocError>
    ensures record_front { IfOk result (IsRecordScan bytes.now) }
{
    match read_record(alloc, bytes) {
        Ok(request) => Ok(RecordScan::Whole(request, record_len(bytes))),
        Err(FieldError::Open) => Ok(RecordScan::Torn),
        Err(FieldError::Wrong) => Ok(RecordScan::Damaged),
        Err(FieldError::NoMemory) => Err(AllocError),
    }
}
