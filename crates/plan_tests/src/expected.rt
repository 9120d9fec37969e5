//! Entries that a test expects, in runs.

use poly_forms::{CheckKind, DrawKind};
use proof_plan::{Plan, PlanEntry};
use std::alloc::AllocError;

/// A message of `length` values.
pub fn message(
    entries: &mut Vec<PlanEntry>,
    check: CheckKind,
    length: u32,
) -> Result<(), AllocError> {
    entries.push(PlanEntry::Message { check, length })?;
    Ok(())
}

/// `times` draws of this count.
pub fn draws(
    entries: &mut Vec<PlanEntry>,
    kind: DrawKind,
    count: u64,
    times: u32,
) -> Result<(), AllocError> {
    for _ in 0..times {
        entries.push(PlanEntry::Draw { kind, count })?;
    }
    Ok(())
}

/// `times` rounds, each a message of `length` values and a draw of one less.
pub fn rounds(
    entries: &mut Vec<PlanEntry>,
    kind: DrawKind,
    length: u32,
    times: u32,
) -> Result<(), AllocError> {
    for _ in 0..times {
        message(entries, CheckKind::RoundSum, length)?;
        draws(entries, kind, u64::from(length).saturating_sub(1), 1)?;
    }
    Ok(())
}

/// Whether these are the entries of a plan.
pub fn are_entries(plan: &Plan, entries: &[PlanEntry]) -> bool {
    if plan.len() as usize != entries.len() {
        return false;
    }
    for i in 0..plan.len() {
        if plan.entry(i) != entries[i as usize] {
            return false;
        }
    }
    true
}
