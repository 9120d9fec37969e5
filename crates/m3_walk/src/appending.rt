//! A reduction more.

ghost use Rattle.std.specs.Prelude.{◌≡◌, ◌++◌, ◌∷◌, [], OnOk};

use crate::no_memory::NoMemory;
use crate::stage::Stage;

/// Appends a reduction.
pub(crate) fn push_stage(stage: Stage, stages: &mut Vec<Stage>) -> Result<(), NoMemory>
    ensures { OnOk result (stages.new.items ≡ stages.old.items ++ stage ∷ []) }
{
    if stages.push(stage).is_err() {
        return Err(NoMemory);
    }
    Ok(())
}
