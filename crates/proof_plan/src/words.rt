//! The entries of the claim on bits and of the switch to words.

ghost use Rattle.std.specs.Prelude.{◌≡◌, ◌++◌, ◌==◌, ◌∷◌, [], cond, OnOk};
ghost use Rattle.proof_plan.specs.declared.plan_entry.PlanEntry.TheVariants.{Root};
ghost use Rattle.proof_plan.specs.Plan.{bit_entries, switch_entries, switch_rounds};

use crate::plan_entry::PlanEntry;
use crate::rounds::{push_coordinates, push_sum};
use poly_forms::{CheckKind, DrawKind};
use std::alloc::AllocError;

/// So many claims on columns, over `2 ^ places` bits.
pub fn push_bits(places: u32, claims: u64, entries: &mut Vec<PlanEntry>) -> Result<(), AllocError>
    ensures { OnOk result (entries.new.items ≡ entries.old.items ++ bit_entries places claims) }
{
    entries.push(PlanEntry::Draw {
        kind: DrawKind::BitBatch,
        count: claims.saturating_sub(1),
    })?;
    push_sum(
        DrawKind::BitRound,
        2,
        places,
        CheckKind::BitFinal,
        1,
        entries,
    )
}

/// The root of the word that the rounds before this one have folded, if there are any.
fn push_root(round: u32, entries: &mut Vec<PlanEntry>) -> Result<(), AllocError>
    ensures { OnOk result (entries.new.items ≡ entries.old.items ++ cond (round == 0) [] (Root ∷ [])) }
{
    if round == 0 {
        return Ok(());
    }
    entries.push(PlanEntry::Root)?;
    Ok(())
}

/// The rounds over the words, with the root of each folded word but the last.
fn push_switch_rounds(vars: u32, entries: &mut Vec<PlanEntry>) -> Result<(), AllocError>
    ensures { OnOk result (entries.new.items ≡ entries.old.items ++ switch_rounds vars) }
{
    for round in 0..vars {
        push_root(round, entries)?;
        entries.push(PlanEntry::Message {
            check: CheckKind::RoundSum,
            length: 3,
        })?;
        entries.push(PlanEntry::Draw {
            kind: DrawKind::SwitchRound,
            count: 2,
        })?;
    }
    Ok(())
}

/// The tensor, the rounds over the words, the constant and the queries.
pub fn push_switch(vars: u32, entries: &mut Vec<PlanEntry>) -> Result<(), AllocError>
    ensures { OnOk result (entries.new.items ≡ entries.old.items ++ switch_entries vars) }
{
    entries.push(PlanEntry::Message {
        check: CheckKind::Tensor,
        length: 128,
    })?;
    push_coordinates(DrawKind::TensorCoordinate, 7, entries)?;
    push_switch_rounds(vars, entries)?;
    entries.push(PlanEntry::Constant)?;
    entries.push(PlanEntry::Queries)?;
    Ok(())
}
