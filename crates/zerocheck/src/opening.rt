//! What a prover holds before its first message.

ghost use Rattle.std.specs.Prelude.{◌≡◌, ◌+◌, ◌^◌, ◌∷◌, [], length, IfOk};
ghost use Rattle.cube_laws.specs.Extension.{weights};
ghost use Rattle.cube_laws.specs.SumClaim.{AllLong};
ghost use Rattle.zerocheck.specs.Opening.{drawn, CanDraw};
ghost use Rattle.zerocheck.specs.Zero.{row_steps};
ghost use Rattle.zerocheck.specs.declared.zero_walk.Stage.{Stage as When};
ghost use Rattle.zerocheck.specs.declared.zero_walk.Stage.TheVariants.{Drawing, Stated, Waiting};

use crate::group::Group;
use crate::no_memory::NoMemory;
use crate::row_steps::row_steps_table;
use crate::zero_walk::Stage;
use crate::zeroed::Zeroed;
use cube_mle::eq_table;
use std::alloc::Global;
use std::marker::Model;
use sumcheck::{SumProver, Tables128};
use tower_field::{B128, Values};

/// The draws so far, and the lists of the group's columns.
#[derive(Drop)]
pub struct Opening {
    stage: Stage,
    zeroed: Zeroed,
    lists: Vec<Values>,
}

impl Model for Opening {
    ghost use Rattle.std.specs.Coded.{codes};
    ghost use Rattle.poly_forms.specs.contracts.form.Form as tree;
    ghost use Rattle.zerocheck.specs.Opening.{Opening};

    ghost Value = { Opening };

    ghost coded = { Prim.hlevel (codes, tree.the_row.coded) };

    ghost view = { λ o. record { stage = o.stage; zeroed = o.zeroed; lists = o.lists.items } };
}

/// The tables of the sum: eq of the coordinates, the positions of rows, and the columns.
fn sum_tables(
    alloc: Global,
    zeroed: &Zeroed,
    lists: &mut Vec<Values>,
) -> Result<Tables128, NoMemory>
    ensures { IfOk result (λ tables. tables ≡ weights zeroed.now.point ∷ row_steps zeroed.now.group ∷ lists.old.items) }
{
    let weights = eq_table(alloc, zeroed.point.as_slice())?;
    let steps = row_steps_table(alloc, &zeroed.group)?;
    let mut tables = Vec::with_capacity(alloc, lists.len())?;
    if tables.push(Values::from_vec(weights)).is_err() {
        return Err(NoMemory);
    }
    if tables.push(Values::from_vec(steps)).is_err() {
        return Err(NoMemory);
    }
    tables.append(lists)?;
    Ok(Tables128::from_vec(tables))
}

impl Opening {
    /// Before the claim is stated.
    pub fn begin(alloc: Global, group: Group, lists: Vec<Values>) -> Result<Opening, NoMemory>
        ensures { IfOk result (λ o. o ≡ record { stage = Waiting; zeroed = record { group = group; beta = 0; point = [] }; lists = lists.items }) }
    {
        Ok(Opening {
            stage: Stage::Waiting,
            zeroed: Zeroed::begin(alloc, group)?,
            lists,
        })
    }

    /// The claim is stated.
    pub fn enter(&mut self)
        ensures { self.new ≡ record self.old { stage = Stated } }
    {
        self.stage = Stage::Stated;
    }

    pub fn draw(&mut self, c: B128)
        requires { CanDraw self.old.stage self.old.zeroed }
        ensures { self.new ≡ record self.old { stage = Drawing; zeroed = drawn self.old.stage self.old.zeroed c } }
    {
        match self.stage {
            Stage::Stated => {
                self.zeroed.join(c);
                self.stage = Stage::Drawing;
            }
            Stage::Drawing => self.zeroed.set(c),
            Stage::Waiting | Stage::Adding | Stage::Done => unreachable!(),
        }
    }

    /// The prover of the sum, with its tables.
    pub fn into_sum(self, alloc: Global) -> Result<SumProver<Zeroed>, NoMemory>
        requires long { AllLong (2 ^ self.zeroed.group.vars) self.lists }
        requires drawn { length self.zeroed.point ≡ self.zeroed.group.vars }
        requires each { length self.lists ≡ length self.zeroed.group.columns }
        ensures { IfOk result (λ p. p ≡ record { summand = self.zeroed; degree = self.zeroed.group.degree + 2; left = self.zeroed.group.vars; lists = weights self.zeroed.point ∷ row_steps self.zeroed.group ∷ self.lists }) }
    {
        let Opening {
            stage: _,
            zeroed,
            mut lists,
        } = self;
        let tables = sum_tables(alloc, &zeroed, &mut lists)?;
        let degree = zeroed.group.degree + 2;
        Ok(SumProver::begin(alloc, zeroed, degree, tables)?)
    }
}
