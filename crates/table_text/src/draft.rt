//! A declaration that is being read, place by place.

ghost use Rattle.std.specs.Prelude.{◌≡◌, IfOk};
ghost use Rattle.table_text.specs.Drafts.{no_parts, with_name, with_column, with_number, with_held, with_constant, with_term, draft_at, summand_step, slot_step, draft_step};
ghost use Rattle.table_text.specs.TokenMeaning.{shown};
ghost use Rattle.table_text.specs.StepMeaning.{IsStepTo};

use crate::decl::{Numbers, Term, Terms};
use crate::expr::{Name, Names};
use crate::refusal::Refusal;
use crate::slots::{Slot, Slots};
use crate::token::{Token, is_mark, is_word, name_of, number_of};
use sqlite_items::Items;
use std::alloc::{AllocError, Global};

/// The names, the numbers and the terms of a declaration so far.
#[derive(Drop)]
pub(crate) struct Parts {
    pub names: Names,
    /// Those of a tuple.
    pub columns: Names,
    pub numbers: Numbers,
    pub terms: Terms,
    pub constant: u128,
    /// A number of a linear form of which the next mark says what it is.
    pub held: u128,
}

impl Parts {
    fn new(alloc: Global) -> Parts
        ensures { result ≡ no_parts }
    {
        Parts {
            names: Items::new(alloc),
            columns: Items::new(alloc),
            numbers: Items::new(alloc),
            terms: Items::new(alloc),
            constant: 0,
            held: 0,
        }
    }

    fn with_name(self, name: Name) -> Result<Parts, AllocError>
        ensures { IfOk result (λ p. p ≡ with_name self name) }
    {
        let mut parts = self;
        parts.names.push(name)?;
        Ok(parts)
    }

    fn with_column(self, column: Name) -> Result<Parts, AllocError>
        ensures { IfOk result (λ p. p ≡ with_column self column) }
    {
        let mut parts = self;
        parts.columns.push(column)?;
        Ok(parts)
    }

    fn with_number(self, number: u128) -> Result<Parts, AllocError>
        ensures { IfOk result (λ p. p ≡ with_number self number) }
    {
        let mut parts = self;
        parts.numbers.push(number)?;
        Ok(parts)
    }

    /// With a number of which the next mark says what it is.
    fn with_held(self, number: u128) -> Parts
        ensures { result ≡ with_held self number }
    {
        let mut parts = self;
        parts.held = number;
        parts
    }

    /// The number that was held is the constant.
    fn with_constant(self) -> Parts
        ensures { result ≡ with_constant self }
    {
        let mut parts = self;
        parts.constant = parts.held;
        parts
    }

    fn with_term(self, coefficient: u128, column: Name) -> Result<Parts, AllocError>
        ensures { IfOk result (λ p. p ≡ with_term self coefficient column) }
    {
        let mut parts = self;
        parts.terms.push(Term {
            coefficient,
            column,
        })?;
        Ok(parts)
    }
}

/// What is left of a declaration, and what was read of it.
#[derive(Drop)]
pub(crate) struct Draft {
    pub slots: Slots,
    pub parts: Parts,
}

impl Draft {
    pub(crate) fn new(alloc: Global, slots: &[Slot]) -> Result<Draft, AllocError>
        ensures { IfOk result (λ d. d ≡ draft_at slots.now no_parts) }
    {
        let slots = Slots::new(alloc, slots)?;
        let parts = Parts::new(alloc);
        Ok(Draft { slots, parts })
    }

    /// With one token more.
    pub(crate) fn step(self, alloc: Global, token: Token<'_>) -> Result<Draft, Refusal>
        ensures { IsStepTo result (draft_step self (shown token.entry)) }
    {
        let Draft { slots, parts } = self;
        let Some((slot, slots)) = slots.popped() else {
            return Err(Refusal::Unexpected);
        };
        slot_step(alloc, slot, slots, parts, token)
    }
}

fn summand_step(
    alloc: Global,
    behind: Slot,
    slots: Slots,
    parts: Parts,
    token: Token<'_>,
) -> Result<Draft, Refusal>
    ensures { IsStepTo result (summand_step behind slots parts (shown token.entry)) }
{
    match token {
        Token::Name(word) => {
            let column = Items::from_slice(alloc, word)?;
            let parts = parts.with_term(1, column)?;
            let slots = slots.with(Slot::TermEnd)?;
            Ok(Draft { slots, parts })
        }
        Token::Number(number) => {
            let parts = parts.with_held(number);
            let slots = slots.with(behind)?;
            Ok(Draft { slots, parts })
        }
        _ => Err(Refusal::Unexpected),
    }
}

/// At a place, with those behind it.
fn slot_step(
    alloc: Global,
    slot: Slot,
    slots: Slots,
    parts: Parts,
    token: Token<'_>,
) -> Result<Draft, Refusal>
    ensures { IsStepTo result (slot_step slot slots parts (shown token.entry)) }
{
    match slot {
        Slot::Mark(mark) if is_mark(token, mark) => Ok(Draft { slots, parts }),
        Slot::Name => {
            let parts = parts.with_name(name_of(alloc, token)?)?;
            Ok(Draft { slots, parts })
        }
        Slot::Number => {
            let parts = parts.with_number(number_of(token)?)?;
            Ok(Draft { slots, parts })
        }
        Slot::Value => {
            let parts = parts.with_number(number_of(token)?)?;
            let slots = slots.with(Slot::ValueEnd)?;
            Ok(Draft { slots, parts })
        }
        Slot::ValueEnd if is_mark(token, b',') => {
            let slots = slots.with(Slot::Value)?;
            Ok(Draft { slots, parts })
        }
        Slot::Column => {
            let parts = parts.with_column(name_of(alloc, token)?)?;
            let slots = slots.with(Slot::ColumnEnd)?;
            Ok(Draft { slots, parts })
        }
        Slot::ColumnEnd if is_mark(token, b',') => {
            let slots = slots.with(Slot::Column)?;
            Ok(Draft { slots, parts })
        }
        Slot::Selector if is_mark(token, b';') => Ok(Draft { slots, parts }),
        Slot::Selector if is_word(token, b"if") => {
            let slots = slots.with(Slot::Mark(b';'))?.with(Slot::Name)?;
            Ok(Draft { slots, parts })
        }
        Slot::FirstSummand => summand_step(alloc, Slot::FirstSign, slots, parts, token),
        Slot::FirstSign if is_mark(token, b'+') => {
            let parts = parts.with_constant();
            let slots = slots.with(Slot::Summand)?;
            Ok(Draft { slots, parts })
        }
        Slot::Summand => summand_step(alloc, Slot::TimesSign, slots, parts, token),
        Slot::FirstSign | Slot::TimesSign if is_mark(token, b'*') => {
            let slots = slots.with(Slot::TermColumn)?;
            Ok(Draft { slots, parts })
        }
        Slot::TermColumn => {
            let coefficient = parts.held;
            let parts = parts.with_term(coefficient, name_of(alloc, token)?)?;
            let slots = slots.with(Slot::TermEnd)?;
            Ok(Draft { slots, parts })
        }
        Slot::TermEnd if is_mark(token, b'+') => {
            let slots = slots.with(Slot::Summand)?;
            Ok(Draft { slots, parts })
        }
        Slot::ValueEnd | Slot::ColumnEnd | Slot::TermEnd if is_mark(token, b')') => Ok(Draft {
            slots,
            parts,
        }),
        _ => Err(Refusal::Unexpected),
    }
}
