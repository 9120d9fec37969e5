//! A text that is being read.

ghost use Rattle.std.specs.Prelude.{◌≡◌};
ghost use Rattle.table_text.specs.Machine.{start, decl_settled, step, is_file_stage};
ghost use Rattle.table_text.specs.TokenMeaning.{shown};
ghost use Rattle.table_text.specs.StepMeaning.{IsStepTo};

use crate::body::{Body, ItemStage, body_step, is_start};
use crate::decl::{Decl, Decls};
use crate::draft::Draft;
use crate::expr::Name;
use crate::forms::{DeclForm, begun_decl, decl_from, side_of};
use crate::refusal::Refusal;
use crate::token::{Token, is_mark, is_word, name_of};
use sqlite_items::Items;
use std::alloc::Global;

/// What comes next in a text.
#[derive(Drop)]
pub(crate) enum Stage {
    /// A declaration, or the end.
    File,
    BoundarySide,
    Drafting(DeclForm, Draft),
    TableName,
    TableBrace(Name),
    Table(Name, Body),
}

/// The finished declarations, and what comes next.
#[derive(Drop)]
pub(crate) struct State {
    pub decls: Decls,
    pub stage: Stage,
}

/// Before the first token.
pub(crate) fn start(alloc: Global) -> State
    ensures { result ≡ start }
{
    State {
        decls: Items::new(alloc),
        stage: Stage::File,
    }
}

/// Whether a text may end there.
pub(crate) fn is_file_stage(stage: &Stage) -> bool
    ensures { result ≡ is_file_stage stage.now }
{
    matches!(stage, Stage::File)
}

/// Where something was read of a declaration, which is done or goes on.
fn settled(mut decls: Decls, form: DeclForm, draft: Draft) -> Result<State, Refusal>
    ensures { IsStepTo result (decl_settled decls form draft) }
{
    if draft.slots.is_empty() {
        let Some(decl) = decl_from(form, draft.parts) else {
            return Err(Refusal::Unexpected);
        };
        decls.push(decl)?;
        let stage = Stage::File;
        Ok(State { decls, stage })
    } else {
        let stage = Stage::Drafting(form, draft);
        Ok(State { decls, stage })
    }
}

/// A state after one token more.
pub(crate) fn step(alloc: Global, state: State, token: Token<'_>) -> Result<State, Refusal>
    ensures { IsStepTo result (step state (shown token.entry)) }
{
    let State { mut decls, stage } = state;
    match stage {
        Stage::File if is_word(token, b"table") => {
            let stage = Stage::TableName;
            Ok(State { decls, stage })
        }
        Stage::File if is_word(token, b"channel") => {
            let form = DeclForm::Channel;
            let stage = Stage::Drafting(form, begun_decl(alloc, form)?);
            Ok(State { decls, stage })
        }
        Stage::File if is_word(token, b"boundary") => {
            let stage = Stage::BoundarySide;
            Ok(State { decls, stage })
        }
        Stage::BoundarySide => {
            let Some(side) = side_of(token) else {
                return Err(Refusal::Unexpected);
            };
            let form = DeclForm::Boundary(side);
            let stage = Stage::Drafting(form, begun_decl(alloc, form)?);
            Ok(State { decls, stage })
        }
        Stage::Drafting(form, draft) => settled(decls, form, draft.step(alloc, token)?),
        Stage::TableName => {
            let stage = Stage::TableBrace(name_of(alloc, token)?);
            Ok(State { decls, stage })
        }
        Stage::TableBrace(name) if is_mark(token, b'{') => {
            let body = Body {
                items: Items::new(alloc),
                stage: ItemStage::Start,
            };
            let stage = Stage::Table(name, body);
            Ok(State { decls, stage })
        }
        Stage::Table(name, body) => {
            if is_mark(token, b'}') && is_start(&body.stage) {
                let Body { items, stage: _ } = body;
                decls.push(Decl::Table { name, items })?;
                let stage = Stage::File;
                return Ok(State { decls, stage });
            }
            let stage = Stage::Table(name, body_step(alloc, body, token)?);
            Ok(State { decls, stage })
        }
        _ => Err(Refusal::Unexpected),
    }
}
