// Writes the text about a server.
ghost use Rattle.std.specs.Prelude.{◌≡◌, ◌++◌, IfOk};
ghost use Rattle.host_status.specs.StatusTexts.{answered_lines, content_lines, home_limit_lines};
ghost use Rattle.host_status.specs.StatusTexts.{limit_line, limit_lines, number_line, status_text};

use crate::answer_counts::AnswerCounts;
use itoa::Buffer;
use std::alloc::{AllocError, Global};
use store_core::{Limits, MAX_DOCUMENT_BYTES, Store};
use xcap_io::Bytes;

// Appends the line of a number.
#[tactic(auto, unfolding(crate::specs::StatusTexts::number_line))]
fn push_line(text: &mut Bytes, name: &str, number: u128) -> Result<(), AllocError>
    ensures appends_bytes { IfOk result (λ _. text.new ≡ text.old ++ number_line name.now number) }
{
    let mut digits = Buffer::new();
    text.extend(name.as_bytes())?;
    text.extend(b" ")?;
    text.extend(digits.format(number).as_bytes())?;
    text.extend(b"\n")
}

// Appends what is stored.
fn push_content(text: &mut Bytes, store: &Store) -> Result<(), AllocError>
    ensures appends_bytes { IfOk result
        (λ _. text.new ≡ text.old ++ content_lines store.now.content) }
{
    push_line(text, "documents", store.count() as u128)?;
    push_line(text, "bytes", store.total() as u128)?;
    push_line(text, "next", store.last_number() as u128 + 1)?;
    Ok(())
}

// Appends the line of a limit, or of none.
#[tactic(auto, unfolding(crate::specs::StatusTexts::limit_line))]
fn push_limit(text: &mut Bytes, name: &str, limit: Option<u64>) -> Result<(), AllocError>
    ensures appends_bytes { IfOk result (λ _. text.new ≡ text.old ++ limit_line name.now limit) }
{
    let Some(limit) = limit else {
        text.extend(name.as_bytes())?;
        return text.extend(b" none\n");
    };
    push_line(text, name, limit as u128)
}

// Appends the limits of all users together.
fn push_limits(text: &mut Bytes, limits: Limits) -> Result<(), AllocError>
    ensures appends_bytes { IfOk result (λ _. text.new ≡ text.old ++ limit_lines limits) }
{
    push_line(text, "documents-limit", limits.documents as u128)?;
    push_line(text, "bytes-limit", limits.bytes as u128)?;
    push_line(text, "document-bytes-limit", MAX_DOCUMENT_BYTES as u128)?;
    Ok(())
}

// The limit as a number of 64 bits.
fn wide(limit: Option<usize>) -> Option<u64>
    ensures exact { result ≡ limit }
{
    match limit {
        Some(limit) => Some(limit as u64),
        None => None,
    }
}

// Appends the limits of one user.
fn push_home_limits(text: &mut Bytes, limits: Limits) -> Result<(), AllocError>
    ensures appends_bytes { IfOk result (λ _. text.new ≡ text.old ++ home_limit_lines limits) }
{
    push_limit(text, "home-documents-limit", wide(limits.home_documents))?;
    push_limit(text, "home-bytes-limit", limits.home_bytes)?;
    Ok(())
}

// Appends how many requests were answered.
fn push_answered(text: &mut Bytes, counts: &AnswerCounts) -> Result<(), AllocError>
    ensures appends_bytes { IfOk result (λ _. text.new ≡ text.old ++ answered_lines counts.now) }
{
    push_line(text, "answered-2xx", counts.successes as u128)?;
    push_line(text, "answered-3xx", counts.redirections as u128)?;
    push_line(text, "answered-4xx", counts.client_errors as u128)?;
    push_line(text, "answered-5xx", counts.server_errors as u128)?;
    Ok(())
}

/// The text about a server with these documents, which answered so many requests.
///
/// # Errors
/// `AllocError` when out of memory.
pub(crate) fn write_status_text(
    alloc: Global,
    store: &Store,
    counts: &AnswerCounts,
) -> Result<Bytes, AllocError>
    ensures ok { IfOk result (λ text. text ≡ status_text store.now.content counts.now) }
{
    let mut text = Bytes::new(alloc);
    push_content(&mut text, store)?;
    push_limits(&mut text, store.limits())?;
    push_home_limits(&mut text, store.limits())?;
    push_answered(&mut text, counts)?;
    Ok(text)
}
