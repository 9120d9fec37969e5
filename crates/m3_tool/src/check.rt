//! The command `check`: whether the values of a witness satisfy the tables.

ghost use Rattle.std.specs.Prelude.{◌≡◌, IfOk};
ghost use Rattle.m3_tool.specs.Answer.{answer_of};
ghost use Rattle.m3_tool.specs.Checking.{EndsCheck};
ghost use Rattle.m3_tool.specs.Run.{IsJudgement};

use crate::answer::{Answer, fixed, made};
use crate::lines::violation_line;
use crate::status::Status;
use column_store::Store;
use m3_judge::{Verdict, judge};
use std::alloc::{AllocError, Global};

/// Whether the values satisfy the tables.
pub(crate) fn judged(alloc: Global, store: &Store) -> Result<Answer, AllocError>
    ensures judged { IfOk result (λ a. IsJudgement store.now.shape store.now.rows store.now.filling (answer_of a)) }
    ensures kind { IfOk result (λ a. EndsCheck a.status) }
{
    match judge(alloc, store) {
        Ok(Verdict::Satisfied) => Ok(fixed(Status::Yes, "satisfied\n")),
        Ok(Verdict::Violated(violation)) => {
            let line = violation_line(alloc, store.shape(), &violation)?;
            Ok(made(Status::No, line))
        }
        Err(_) => Err(AllocError),
    }
}
