//! The items of a table that is being read.

ghost use Rattle.std.specs.Prelude.{◌≡◌};
ghost use Rattle.table_text.specs.Machine.{is_start, operand_step, operator_step, settled, body_step};
ghost use Rattle.table_text.specs.TokenMeaning.{shown};
ghost use Rattle.table_text.specs.StepMeaning.{IsStepTo};

use crate::decl::{Item, TableItems};
use crate::draft::Draft;
use crate::expr::{Expr, Name};
use crate::forms::{ItemForm, begun_item, form_word, item_from, side_of};
use crate::formula::Formula;
use crate::refusal::Refusal;
use crate::token::{Token, is_mark, is_word, level_of, log_values_of, name_of};
use sqlite_items::Items;
use std::alloc::Global;

/// What comes next in a table.
#[derive(Drop)]
pub(crate) enum ItemStage {
    /// An item, or the end of the table.
    Start,
    ColumnName,
    ColumnColon(Name),
    ColumnType(Name),
    /// After a type's word: `x`, or the end of the column.
    ColumnEnd(Name, u32),
    ColumnValues(Name, u32),
    ColumnLast(Name, u32, u32),
    VirtualName,
    VirtualEquals(Name),
    VirtualForm(Name),
    Drafting(ItemForm, Draft),
    ZeroName,
    ZeroColon(Name),
    Operand(Name, Formula),
    Operator(Name, Formula),
}

/// The finished items, and what comes next.
#[derive(Drop)]
pub(crate) struct Body {
    pub items: TableItems,
    pub stage: ItemStage,
}

/// Whether an item, or the end of the table, comes next.
pub(crate) fn is_start(stage: &ItemStage) -> bool
    ensures { result ≡ is_start stage.now }
{
    matches!(stage, ItemStage::Start)
}

fn operand_step(
    alloc: Global,
    name: Name,
    formula: Formula,
    token: Token<'_>,
) -> Result<ItemStage, Refusal>
    ensures { IsStepTo result (operand_step name formula (shown token.entry)) }
{
    match token {
        Token::Name(word) => {
            let column = Items::from_slice(alloc, word)?;
            let formula = formula.with_factor(Expr::Column(column))?;
            Ok(ItemStage::Operator(name, formula))
        }
        Token::Number(number) => {
            let formula = formula.with_factor(Expr::Number(number))?;
            Ok(ItemStage::Operator(name, formula))
        }
        Token::Mark(b'(') => {
            let formula = formula.opened(alloc)?;
            Ok(ItemStage::Operand(name, formula))
        }
        _ => Err(Refusal::Unexpected),
    }
}

fn operator_step(
    alloc: Global,
    mut items: TableItems,
    name: Name,
    formula: Formula,
    token: Token<'_>,
) -> Result<Body, Refusal>
    ensures { IsStepTo result (operator_step items name formula (shown token.entry)) }
{
    if is_mark(token, b'*') {
        let stage = ItemStage::Operand(name, formula);
        Ok(Body { items, stage })
    } else if is_mark(token, b'+') {
        let stage = ItemStage::Operand(name, formula.with_term(alloc)?);
        Ok(Body { items, stage })
    } else if is_mark(token, b')') {
        let Some(formula) = formula.closed()? else {
            return Err(Refusal::Unexpected);
        };
        let stage = ItemStage::Operator(name, formula);
        Ok(Body { items, stage })
    } else if is_mark(token, b';') && formula.outer.is_empty() {
        let expr = formula.innermost()?;
        items.push(Item::Zero { name, expr })?;
        let stage = ItemStage::Start;
        Ok(Body { items, stage })
    } else {
        Err(Refusal::Unexpected)
    }
}

/// Where an item begins.
fn start_step(alloc: Global, items: TableItems, token: Token<'_>) -> Result<Body, Refusal>
    ensures { IsStepTo result (body_step items ItemStage.Start (shown token.entry)) }
{
    if is_word(token, b"column") {
        let stage = ItemStage::ColumnName;
        Ok(Body { items, stage })
    } else if is_word(token, b"virtual") {
        let stage = ItemStage::VirtualName;
        Ok(Body { items, stage })
    } else if is_word(token, b"zero") {
        let stage = ItemStage::ZeroName;
        Ok(Body { items, stage })
    } else {
        let Some(side) = side_of(token) else {
            return Err(Refusal::Unexpected);
        };
        let form = ItemForm::Flush(side);
        let draft = begun_item(alloc, &form)?;
        let stage = ItemStage::Drafting(form, draft);
        Ok(Body { items, stage })
    }
}

/// Where something was read of an item, which is done or goes on.
fn settled(mut items: TableItems, form: ItemForm, draft: Draft) -> Result<Body, Refusal>
    ensures { IsStepTo result (settled items form draft) }
{
    if draft.slots.is_empty() {
        let Some(item) = item_from(form, draft.parts) else {
            return Err(Refusal::Unexpected);
        };
        items.push(item)?;
        let stage = ItemStage::Start;
        Ok(Body { items, stage })
    } else {
        let stage = ItemStage::Drafting(form, draft);
        Ok(Body { items, stage })
    }
}

/// A body after one token more.
pub(crate) fn body_step(alloc: Global, body: Body, token: Token<'_>) -> Result<Body, Refusal>
    ensures { IsStepTo result (body_step body.items body.stage (shown token.entry)) }
{
    let Body { mut items, stage } = body;
    match stage {
        ItemStage::Start => start_step(alloc, items, token),
        ItemStage::ColumnName => {
            let stage = ItemStage::ColumnColon(name_of(alloc, token)?);
            Ok(Body { items, stage })
        }
        ItemStage::ColumnColon(name) if is_mark(token, b':') => {
            let stage = ItemStage::ColumnType(name);
            Ok(Body { items, stage })
        }
        ItemStage::ColumnType(name) => {
            let stage = ItemStage::ColumnEnd(name, level_of(token)?);
            Ok(Body { items, stage })
        }
        ItemStage::ColumnEnd(name, level) if is_mark(token, b';') => {
            items.push(Item::Column {
                name,
                level,
                log_values: 0,
            })?;
            let stage = ItemStage::Start;
            Ok(Body { items, stage })
        }
        ItemStage::ColumnEnd(name, level) if is_word(token, b"x") => {
            let stage = ItemStage::ColumnValues(name, level);
            Ok(Body { items, stage })
        }
        ItemStage::ColumnValues(name, level) => {
            let stage = ItemStage::ColumnLast(name, level, log_values_of(token)?);
            Ok(Body { items, stage })
        }
        ItemStage::ColumnLast(name, level, log_values) if is_mark(token, b';') => {
            items.push(Item::Column {
                name,
                level,
                log_values,
            })?;
            let stage = ItemStage::Start;
            Ok(Body { items, stage })
        }
        ItemStage::VirtualName => {
            let stage = ItemStage::VirtualEquals(name_of(alloc, token)?);
            Ok(Body { items, stage })
        }
        ItemStage::VirtualEquals(name) if is_mark(token, b'=') => {
            let stage = ItemStage::VirtualForm(name);
            Ok(Body { items, stage })
        }
        ItemStage::VirtualForm(name) => {
            let Some(word) = form_word(token) else {
                return Err(Refusal::Unexpected);
            };
            let form = ItemForm::Virtual(name, word);
            let draft = begun_item(alloc, &form)?;
            let stage = ItemStage::Drafting(form, draft);
            Ok(Body { items, stage })
        }
        ItemStage::Drafting(form, draft) => settled(items, form, draft.step(alloc, token)?),
        ItemStage::ZeroName => {
            let stage = ItemStage::ZeroColon(name_of(alloc, token)?);
            Ok(Body { items, stage })
        }
        ItemStage::ZeroColon(name) if is_mark(token, b':') => {
            let stage = ItemStage::Operand(name, Formula::new(alloc));
            Ok(Body { items, stage })
        }
        ItemStage::Operand(name, formula) => {
            let stage = operand_step(alloc, name, formula, token)?;
            Ok(Body { items, stage })
        }
        ItemStage::Operator(name, formula) => operator_step(alloc, items, name, formula, token),
        _ => Err(Refusal::Unexpected),
    }
}
