//! What a declaration has, place by place.

ghost use Rattle.std.specs.Prelude.{◌≡◌, ◌∷◌, IfOk};
ghost use Rattle.table_text.specs.Drafts.{popped, is_done};

use sqlite_items::Items;
use std::alloc::{AllocError, Global};
use std::marker::Model;

/// What stands at a place of a declaration.
#[derive(Clone, Copy, Debug)]
pub(crate) enum Slot {
    Mark(u8),
    Name,
    Number,
    /// A number of a tuple.
    Value,
    /// Behind a number of a tuple: `,` and the next one, or `)`.
    ValueEnd,
    /// A column of a tuple.
    Column,
    /// Behind a column of a tuple: `,` and the next one, or `)`.
    ColumnEnd,
    /// `;`, or `if`, a name and `;`.
    Selector,
    /// The constant of a linear form, or its first term.
    FirstSummand,
    /// Behind the first number of a linear form: `+` behind the constant, `*` behind a coefficient.
    FirstSign,
    Summand,
    TimesSign,
    /// The column behind a coefficient and its `*`.
    TermColumn,
    /// Behind a term: `+` and the next one, or `)`.
    TermEnd,
}

/// The places that are left, the next one on top.
#[derive(Debug, Drop)]
pub(crate) struct Slots {
    stack: Items<Slot>,
}

impl Model for Slots {
    ghost use Rattle.std.specs.Prelude.{List, reverse};
    ghost use Rattle.table_text.specs.declared.slots.Slot.{Slot};

    ghost Value = { List Slot };

    ghost view = { λ s. reverse s.stack };
}

impl Slots {
    pub(crate) fn new(alloc: Global, slots: &[Slot]) -> Result<Slots, AllocError>
        ensures { IfOk result (λ s. s ≡ slots.now) }
    {
        let stack: Vec<Slot> = slots.iter().rev().copied().collect(alloc)?;
        Ok(Slots {
            stack: Items::from_vec(stack),
        })
    }

    /// The next place, and those behind it.
    pub(crate) fn popped(self) -> Option<(Slot, Slots)>
        ensures { result ≡ popped self }
    {
        let Slots { mut stack } = self;
        let slot = stack.pop()?;
        Some((slot, Slots { stack }))
    }

    /// With one place more in front.
    pub(crate) fn with(self, slot: Slot) -> Result<Slots, AllocError>
        ensures { IfOk result (λ s. s ≡ slot ∷ self) }
    {
        let Slots { mut stack } = self;
        stack.push(slot)?;
        Ok(Slots { stack })
    }

    #[tactic(auto, using(crate::proofs::Stacks::done_reverse))]
    pub(crate) fn is_empty(&self) -> bool
        ensures { result ≡ is_done self.now }
    {
        self.stack.len() == 0
    }
}
