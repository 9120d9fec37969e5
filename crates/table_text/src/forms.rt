//! The declarations that are read place by place.

ghost use Rattle.std.specs.Prelude.{◌≡◌, IfOk};
ghost use Rattle.table_text.specs.Forms.{form_word, side_of, form_slots, item_slots, decl_slots, one, shift_parts, name_and_number, flush_names, form_from, item_from, decl_from};
ghost use Rattle.table_text.specs.Drafts.{draft_at, no_parts};
ghost use Rattle.table_text.specs.TokenMeaning.{shown};

use crate::decl::{Decl, Item, Side, VirtualForm};
use crate::draft::{Draft, Parts};
use crate::expr::{Name, Names};
use crate::slots::Slot;
use crate::token::{Token, is_word};
use std::alloc::{AllocError, Global};

/// Which form a virtual column has.
#[derive(Clone, Copy)]
pub(crate) enum FormWord {
    Shl,
    Shr,
    Rol,
    Project,
    Pack,
    Linear,
}

/// An item that is read place by place.
#[derive(Drop)]
pub(crate) enum ItemForm {
    Virtual(Name, FormWord),
    Flush(Side),
}

/// A declaration outside of tables that is read place by place.
#[derive(Clone, Copy)]
pub(crate) enum DeclForm {
    Channel,
    Boundary(Side),
}

/// The side that a token names.
pub(crate) fn side_of(token: Token<'_>) -> Option<Side>
    ensures { result ≡ side_of (shown token.entry) }
{
    if is_word(token, b"push") {
        Some(Side::Push)
    } else if is_word(token, b"pull") {
        Some(Side::Pull)
    } else {
        None
    }
}

/// The form that a token names.
pub(crate) fn form_word(token: Token<'_>) -> Option<FormWord>
    ensures { result ≡ form_word (shown token.entry) }
{
    if is_word(token, b"shl") {
        Some(FormWord::Shl)
    } else if is_word(token, b"shr") {
        Some(FormWord::Shr)
    } else if is_word(token, b"rol") {
        Some(FormWord::Rol)
    } else if is_word(token, b"project") {
        Some(FormWord::Project)
    } else if is_word(token, b"pack") {
        Some(FormWord::Pack)
    } else if is_word(token, b"linear") {
        Some(FormWord::Linear)
    } else {
        None
    }
}

/// Behind the word of a form.
fn begun_form(alloc: Global, word: FormWord) -> Result<Draft, AllocError>
    ensures { IfOk result (λ d. d ≡ draft_at (form_slots word) no_parts) }
{
    match word {
        FormWord::Shl | FormWord::Shr | FormWord::Rol | FormWord::Project => Draft::new(
            alloc,
            &[
                Slot::Mark(b'('),
                Slot::Name,
                Slot::Mark(b','),
                Slot::Number,
                Slot::Mark(b','),
                Slot::Number,
                Slot::Mark(b')'),
                Slot::Mark(b';'),
            ],
        ),
        FormWord::Pack => Draft::new(
            alloc,
            &[
                Slot::Mark(b'('),
                Slot::Name,
                Slot::Mark(b','),
                Slot::Number,
                Slot::Mark(b')'),
                Slot::Mark(b';'),
            ],
        ),
        FormWord::Linear => Draft::new(
            alloc,
            &[Slot::Mark(b'('), Slot::FirstSummand, Slot::Mark(b';')],
        ),
    }
}

/// Behind the first words of an item, which say its form.
pub(crate) fn begun_item(alloc: Global, form: &ItemForm) -> Result<Draft, AllocError>
    ensures { IfOk result (λ d. d ≡ draft_at (item_slots form.now) no_parts) }
{
    match form {
        ItemForm::Virtual(_, word) => begun_form(alloc, *word),
        ItemForm::Flush(_) => Draft::new(
            alloc,
            &[Slot::Name, Slot::Mark(b'('), Slot::Column, Slot::Selector],
        ),
    }
}

/// Behind the first words of a declaration, which say its form.
pub(crate) fn begun_decl(alloc: Global, form: DeclForm) -> Result<Draft, AllocError>
    ensures { IfOk result (λ d. d ≡ draft_at (decl_slots form) no_parts) }
{
    match form {
        DeclForm::Channel => Draft::new(
            alloc,
            &[Slot::Name, Slot::Mark(b':'), Slot::Number, Slot::Mark(b';')],
        ),
        DeclForm::Boundary(_) => Draft::new(
            alloc,
            &[Slot::Name, Slot::Mark(b'('), Slot::Value, Slot::Mark(b';')],
        ),
    }
}

fn one(mut names: Names) -> Option<Name>
    ensures { result ≡ one names }
{
    if names.len() == 1 { names.pop() } else { None }
}

/// The column, the block's logarithm and the offset of a shift; likewise of `project`.
fn shift_parts(parts: Parts) -> Option<(Name, u128, u128)>
    ensures { result ≡ shift_parts parts }
{
    let column = one(parts.names)?;
    let [first, second] = parts.numbers.as_slice() else {
        return None;
    };
    Some((column, *first, *second))
}

fn name_and_number(parts: Parts) -> Option<(Name, u128)>
    ensures { result ≡ name_and_number parts }
{
    let name = one(parts.names)?;
    let [number] = parts.numbers.as_slice() else {
        return None;
    };
    Some((name, *number))
}

/// A channel, and a selector if there is one.
fn flush_names(mut names: Names) -> Option<(Name, Option<Name>)>
    ensures { result ≡ flush_names names }
{
    if names.len() == 2 {
        let selector = names.pop();
        Some((one(names)?, selector))
    } else {
        Some((one(names)?, None))
    }
}

/// The form of a virtual column, of which all was read.
fn form_from(word: FormWord, parts: Parts) -> Option<VirtualForm>
    ensures { result ≡ form_from word parts }
{
    let form = match word {
        FormWord::Shl => {
            let (column, block, offset) = shift_parts(parts)?;
            VirtualForm::Shl {
                column,
                block,
                offset,
            }
        }
        FormWord::Shr => {
            let (column, block, offset) = shift_parts(parts)?;
            VirtualForm::Shr {
                column,
                block,
                offset,
            }
        }
        FormWord::Rol => {
            let (column, block, offset) = shift_parts(parts)?;
            VirtualForm::Rol {
                column,
                block,
                offset,
            }
        }
        FormWord::Project => {
            let (column, log, index) = shift_parts(parts)?;
            VirtualForm::Project { column, log, index }
        }
        FormWord::Pack => {
            let (column, log) = name_and_number(parts)?;
            VirtualForm::Pack { column, log }
        }
        FormWord::Linear => {
            let Parts {
                constant,
                terms,
                ..
            } = parts;
            VirtualForm::Linear { constant, terms }
        }
    };
    Some(form)
}

/// An item of which all was read.
pub(crate) fn item_from(form: ItemForm, parts: Parts) -> Option<Item>
    ensures { result ≡ item_from form parts }
{
    match form {
        ItemForm::Virtual(name, word) => {
            let form = form_from(word, parts)?;
            Some(Item::Virtual { name, form })
        }
        ItemForm::Flush(side) => {
            let (channel, selector) = flush_names(parts.names)?;
            Some(Item::Flush {
                side,
                channel,
                columns: parts.columns,
                selector,
            })
        }
    }
}

/// A declaration of which all was read.
pub(crate) fn decl_from(form: DeclForm, parts: Parts) -> Option<Decl>
    ensures { result ≡ decl_from form parts }
{
    match form {
        DeclForm::Channel => {
            let (name, width) = name_and_number(parts)?;
            Some(Decl::Channel { name, width })
        }
        DeclForm::Boundary(side) => {
            let channel = one(parts.names)?;
            Some(Decl::Boundary {
                side,
                channel,
                values: parts.numbers,
            })
        }
    }
}
