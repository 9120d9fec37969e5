//! The reading of a whole plan.

ghost use Rattle.std.specs.Prelude.{◌≡◌, None, MatchResult, OnOk};
ghost use Rattle.m3_walk.specs.Course.{walked};
ghost use Rattle.m3_verifier.specs.Reading.{reading};
ghost use Rattle.m3_verifier.specs.Stops.{Stops};

use crate::halt::Stopped;
use crate::reader::Reader;
use proof_plan::Plan;
use sumcheck::Steps;

/// Reads the entries of a plan, in order, up to the first that halts.
pub fn read_through<W: Steps + Drop>(reader: &mut Reader<'_, W>, plan: &Plan) -> Result<(), Stopped>
    requires { walked plan.now.entries ≡ W.machine.entries reader.old.state }
    ensures stopped { MatchResult result (λ _. (reading W.machine plan.now.entries 0 reader.old).stopped ≡ None) (λ s. Stops s (reading W.machine plan.now.entries 0 reader.old).stopped) }
    ensures last { OnOk result ((reading W.machine plan.now.entries 0 reader.old).last ≡ reader.new) }
{
    W::is_lawful();
    for number in 0..plan.len() {
        if let Err(halt) = reader.entry(plan.entry(number)) {
            return Err(Stopped {
                entry: number,
                halt,
            });
        }
    }
    Ok(())
}
