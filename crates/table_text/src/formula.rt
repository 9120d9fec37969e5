//! An expression that is being read.

ghost use Rattle.std.specs.Prelude.{◌≡◌, IfOk, MatchOption, MatchResult, Some, None};
ghost use Rattle.table_text.specs.Grammar.{sum_of, product_of};

use crate::expr::{Expr, Exprs};
use sqlite_items::Items;
use std::alloc::{AllocError, Global};

/// A sum around an open parenthesis: its finished terms, and the factors so far of the next one.
#[derive(Drop)]
pub(crate) struct Frame {
    pub terms: Exprs,
    pub factors: Exprs,
}

/// The sums around the open parentheses, the outermost first, and the innermost sum.
#[derive(Drop)]
pub(crate) struct Formula {
    pub outer: Items<Frame>,
    pub terms: Exprs,
    pub factors: Exprs,
}

/// A sum, or its one term.
fn sum_of(mut terms: Exprs) -> Expr
    ensures { result ≡ sum_of terms }
{
    if terms.len() == 1
        && let Some(term) = terms.pop()
    {
        return term;
    }
    Expr::Sum(terms)
}

/// A product, or its one factor.
fn product_of(mut factors: Exprs) -> Expr
    ensures { result ≡ product_of factors }
{
    if factors.len() == 1
        && let Some(factor) = factors.pop()
    {
        return factor;
    }
    Expr::Product(factors)
}

impl Formula {
    ghost use Rattle.table_text.specs.Machine.{no_formula, with_factor, with_term, opened, innermost, closed};

    pub(crate) fn new(alloc: Global) -> Formula
        ensures { result ≡ no_formula }
    {
        Formula {
            outer: Items::new(alloc),
            terms: Items::new(alloc),
            factors: Items::new(alloc),
        }
    }

    pub(crate) fn with_factor(self, factor: Expr) -> Result<Formula, AllocError>
        ensures { IfOk result (λ f. f ≡ with_factor self factor) }
    {
        let Formula {
            outer,
            terms,
            mut factors,
        } = self;
        factors.push(factor)?;
        Ok(Formula {
            outer,
            terms,
            factors,
        })
    }

    /// Behind a `+`.
    pub(crate) fn with_term(self, alloc: Global) -> Result<Formula, AllocError>
        ensures { IfOk result (λ f. f ≡ with_term self) }
    {
        let Formula {
            outer,
            mut terms,
            factors,
        } = self;
        terms.push(product_of(factors))?;
        Ok(Formula {
            outer,
            terms,
            factors: Items::new(alloc),
        })
    }

    /// Behind a `(`.
    pub(crate) fn opened(self, alloc: Global) -> Result<Formula, AllocError>
        ensures { IfOk result (λ f. f ≡ opened self) }
    {
        let Formula {
            mut outer,
            terms,
            factors,
        } = self;
        outer.push(Frame { terms, factors })?;
        Ok(Formula {
            outer,
            terms: Items::new(alloc),
            factors: Items::new(alloc),
        })
    }

    /// The innermost sum.
    pub(crate) fn innermost(self) -> Result<Expr, AllocError>
        ensures { IfOk result (λ e. e ≡ innermost self) }
    {
        let Formula {
            outer: _,
            mut terms,
            factors,
        } = self;
        terms.push(product_of(factors))?;
        Ok(sum_of(terms))
    }

    /// Behind a `)`, if one is open.
    #[tactic(auto, using(crate::proofs::Stacks::split_last_of))]
    pub(crate) fn closed(self) -> Result<Option<Formula>, AllocError>
        ensures { IfOk result (λ f. f ≡ closed self) }
    {
        let Formula {
            mut outer,
            mut terms,
            factors,
        } = self;
        let Some(
            Frame {
                terms: outer_terms,
                factors: mut outer_factors,
            },
        ) = outer.pop()
        else {
            return Ok(None);
        };
        terms.push(product_of(factors))?;
        outer_factors.push(sum_of(terms))?;
        Ok(Some(Formula {
            outer,
            terms: outer_terms,
            factors: outer_factors,
        }))
    }
}
