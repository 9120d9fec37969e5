//! The entries of a sum, and draws of coordinates.

ghost use Rattle.std.specs.Prelude.{◌≡◌, ◌++◌, ◌+◌, ◌<◌, ◌^◌, OnOk};
ghost use Rattle.proof_plan.specs.Plan.{coordinates, rounds, sum_entries};

use crate::plan_entry::PlanEntry;
use poly_forms::{CheckKind, DrawKind};
use std::alloc::AllocError;

/// Rounds of this degree over so many variables.
pub fn push_rounds(
    kind: DrawKind,
    degree: u32,
    vars: u32,
    entries: &mut Vec<PlanEntry>,
) -> Result<(), AllocError>
    requires { degree < 2 ^ 16 }
    ensures { OnOk result (entries.new.items ≡ entries.old.items ++ rounds kind degree vars) }
{
    for _ in 0..vars {
        entries.push(PlanEntry::Message {
            check: CheckKind::RoundSum,
            length: degree + 1,
        })?;
        entries.push(PlanEntry::Draw {
            kind,
            count: u64::from(degree),
        })?;
    }
    Ok(())
}

/// The rounds of a sum and its last message.
pub fn push_sum(
    kind: DrawKind,
    degree: u32,
    vars: u32,
    check: CheckKind,
    length: u32,
    entries: &mut Vec<PlanEntry>,
) -> Result<(), AllocError>
    requires { degree < 2 ^ 16 }
    ensures { OnOk result (entries.new.items ≡ entries.old.items ++ sum_entries kind degree vars check length) }
{
    push_rounds(kind, degree, vars, entries)?;
    entries.push(PlanEntry::Message { check, length })?;
    Ok(())
}

/// Draws of so many coordinates.
pub fn push_coordinates(
    kind: DrawKind,
    count: u32,
    entries: &mut Vec<PlanEntry>,
) -> Result<(), AllocError>
    ensures { OnOk result (entries.new.items ≡ entries.old.items ++ coordinates kind count) }
{
    for _ in 0..count {
        entries.push(PlanEntry::Draw { kind, count: 1 })?;
    }
    Ok(())
}
