//! Whether the entries of a revocation list differ.

ghost use Rattle.std.specs.Prelude.{◌↔◌, ◌≢◌, [], IsTrue, IfOk, IfErr};
ghost use Rattle.rpki_der.specs.Prelude.{optional_of};
ghost use Rattle.rpki_crl.specs.Crl.{entries_in, entries_of, listed};
ghost use Rattle.rpki_issue.specs.SignedList.{AreOnce, Differ};

use rpki::repository::x509::Serial;
use rpki_crl::CrlEntry;
use std::alloc::{AllocError, Global};

/// Whether no two of the numbers are equal. Sorts them, in n log n steps for n numbers. Allocates nothing.
fn differ(numbers: &mut [Serial]) -> bool
    ensures { IsTrue result ↔ Differ numbers.old }
{
    numbers.sort_unstable();
    'numbers: for i in 1..numbers.len() {
        if numbers[i - 1] == numbers[i] {
            return false;
        }
    }
    true
}

/// Whether no two of the entries have the same serial number, in n log n steps for n entries.
///
/// Returns `AllocError` if allocation fails, only where there is an entry.
fn are_distinct(alloc: Global, entries: &[CrlEntry]) -> Result<bool, AllocError>
    ensures ok { IfOk result (λ b. IsTrue b ↔ AreOnce (entries_in entries.now)) }
    ensures err { IfErr result (λ _. entries.now ≢ []) }
{
    let mut numbers = Vec::new(alloc);
    'entries: for entry in entries {
        numbers.push(entry.user_certificate)?;
    }
    Ok(differ(&mut numbers))
}

/// Whether no two of the entries, where there is a list of them, have the same serial number.
///
/// Returns `AllocError` if allocation fails.
pub(crate) fn are_once(alloc: Global, entries: &Option<Vec<CrlEntry>>) -> Result<bool, AllocError>
    ensures { IfOk result (λ b. IsTrue b ↔ AreOnce (listed (optional_of entries_of entries.now))) }
{
    match entries {
        Some(entries) => are_distinct(alloc, entries.as_slice()),
        None => Ok(true),
    }
}
