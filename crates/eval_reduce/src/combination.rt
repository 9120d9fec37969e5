//! Linear columns.

ghost use Rattle.std.specs.Prelude.{◌≡◌, ◌≤◌, ◌+◌, ◌++◌, IfOk, IsSome, Some, length, vec_capacity};
ghost use Rattle.column_laws.specs.Columns.{linear_value};
ghost use Rattle.eval_reduce.specs.Linear.{coefficients, combination_of, term_claims};

use crate::no_memory::NoMemory;
use crate::room::Points;
use crate::virtual_column::{column_shape, vars_on};
use std::alloc::Global;
use std::marker::Model;
use sumcheck::ColumnClaim;
use table_shape::{ColumnKind, Shape, ShapeForm, ShapeTerm};
use tower_field::B128;

/// A column of `2 ^ vars` values, each a constant plus the sum of the terms.
#[derive(Drop)]
pub struct Combination {
    pub table: u32,
    pub column: u32,
    pub vars: u32,
    pub constant: B128,
    pub terms: Vec<ShapeTerm>,
}

impl Model for Combination {
    ghost use Rattle.eval_reduce.specs.Linear.{Combination};

    ghost Value = { Combination };

    ghost view = { λ f. record { table = f.table; column = f.column; vars = f.vars; constant = f.constant; terms = f.terms.items } };
}

fn copied_terms(alloc: Global, terms: &[ShapeTerm]) -> Result<Vec<ShapeTerm>, NoMemory>
    ensures { IfOk result (λ copies. copies.items ≡ terms.now) }
{
    let mut copies = Vec::new(alloc);
    for term in terms {
        let copy = ShapeTerm {
            coefficient: term.coefficient,
            column: term.column,
        };
        if copies.push(copy).is_err() {
            return Err(NoMemory);
        }
    }
    Ok(copies)
}

impl Combination {
    /// That of a linear column on a number of rows.
    pub(crate) fn of(
        alloc: Global,
        shape: &Shape,
        table: u32,
        column: u32,
        rows: u32,
    ) -> Result<Combination, NoMemory>
        requires { IsSome (combination_of shape.now.tables rows table column) }
        ensures value { IfOk result (λ f. combination_of shape.now.tables rows table column ≡ Some f) }
        ensures few { IfOk result (λ f. length f.terms ≤ 64) }
    {
        let of = column_shape(shape, table, column);
        let vars = vars_on(rows, of);
        match &of.kind {
            ColumnKind::Virtual(ShapeForm::Linear { constant, terms }) => Ok(Combination {
                table,
                column,
                vars,
                constant: *constant,
                terms: copied_terms(alloc, terms.as_slice())?,
            }),
            _ => unreachable!(),
        }
    }

    /// The constant plus the sum of coefficients times values.
    pub(crate) fn value(&self, values: &[B128]) -> B128
        requires { length values.now ≡ length self.now.terms }
        ensures { result ≡ linear_value self.now.constant (coefficients self.now.terms) values.now }
    {
        let mut sum = self.constant;
        let mut i = values.len();
        while i > 0 {
            i -= 1;
            sum = self.terms[i].coefficient * values[i] + sum;
        }
        sum
    }

    /// Appends a claim for each term, at the point of a claim.
    pub(crate) fn tell(
        &self,
        claim: &ColumnClaim,
        values: &[B128],
        points: &mut Points,
        claims: &mut Vec<ColumnClaim>,
    )
        requires equal { length values.now ≡ length self.now.terms }
        requires many { length self.now.terms ≤ points.old.count }
        requires short { length claim.now.point ≤ points.old.vars }
        requires space { length claims.old.items + length self.now.terms ≤ vec_capacity claims.old }
        ensures claims { claims.new.items ≡ claims.old.items ++ term_claims claim.now self.now.terms values.now }
        ensures vars { points.new.vars ≡ points.old.vars }
    {
        for i in 0..values.len() {
            let mut told = points.copy(claim);
            told.column = self.terms[i].column;
            told.value = values[i];
            if claims.push(told).is_err() {
                unreachable!();
            }
        }
    }
}
