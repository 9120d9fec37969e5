//! Which declarations a text can have.

ghost use Rattle.std.specs.Prelude.{◌≡◌, ◌&&◌, ◌+◌, ◌-◌, nat_le, map, [], ◌∷◌, if◌then◌else◌, Some, None};
ghost use Rattle.std.specs.List.{list_all};
ghost use Rattle.table_text.specs.Bytes.{is_word_byte};
ghost use Rattle.table_text.specs.Valid.{is_name, is_number, is_some_list, is_valid_expr, greatest, depth, is_valid_term, is_valid_form, is_selector, is_valid_item, is_valid_decl, is_valid, declarations};
ghost use Rattle.table_text.specs.Limits.{max_open, max_declarations};
ghost use Rattle.table_text.specs.declared.print.Place.TheVariants.{Alone};

use crate::byte_classes::{is_letter, is_word_byte};
use crate::decl::{Decl, Item, Term, VirtualForm};
use crate::expr::{Expr, Name};
use crate::lexer::is_reserved;
use crate::limits::{MAX_DECLARATIONS, MAX_LEVEL, MAX_LOG_VALUES, MAX_OPEN, MAX_WORD};
use crate::print::{Place, product_in_parens, sum_in_parens};

fn are_word_bytes(bytes: &[u8]) -> bool
    ensures { result ≡ list_all is_word_byte bytes.now }
{
    bytes.iter().all(|byte| is_word_byte(*byte))
}

fn is_name(word: &[u8]) -> bool
    ensures { result ≡ is_name word.now }
{
    match word {
        [] => false,
        [first, others @ ..] => {
            is_letter(*first)
                && are_word_bytes(others)
                && word.len() <= MAX_WORD
                && !is_reserved(word)
        }
    }
}

fn are_names(names: &[Name]) -> bool
    ensures { result ≡ list_all is_name names.now }
{
    names.iter().all(|name| is_name(name.as_slice()))
}

/// The language has each number of this type.
fn is_number(_number: u128) -> bool
    ensures { result ≡ is_number _number }
{
    true
}

fn are_numbers(numbers: &[u128]) -> bool
    ensures { result ≡ list_all is_number numbers.now }
{
    numbers.iter().all(|number| is_number(*number))
}

fn has_member<T>(items: &[T]) -> bool
    ensures { result ≡ is_some_list items.now }
{
    match items {
        [] => false,
        [_, ..] => true,
    }
}

/// Whether sums and products have two parts, and names are names.
#[cycle(validity)]
fn is_valid_expr(expr: &Expr) -> bool
    ensures { result ≡ is_valid_expr expr.now }
{
    match expr {
        Expr::Number(number) => is_number(*number),
        Expr::Column(name) => is_name(name.as_slice()),
        Expr::Sum(parts) => parts.len() >= 2 && are_valid_exprs(parts.as_slice()),
        Expr::Product(parts) => parts.len() >= 2 && are_valid_exprs(parts.as_slice()),
    }
}

#[cycle(validity)]
fn are_valid_exprs(exprs: &[Expr]) -> bool
    ensures { result ≡ list_all (λ b. b) (map is_valid_expr exprs.now) }
{
    for expr in exprs {
        if !is_valid_expr(expr) {
            return false;
        }
    }
    true
}

/// Whether at most so many parentheses are open at once in the text of an expression.
#[cycle(depths)]
fn is_within(expr: &Expr, place: Place, room: usize) -> bool
    ensures { result ≡ nat_le (depth expr.now place) room }
{
    match expr {
        Expr::Number(_) => true,
        Expr::Column(_) => true,
        Expr::Sum(parts) => {
            let parens = sum_in_parens(place);
            are_parts_within(parts.as_slice(), Place::InSum, parens, room)
        }
        Expr::Product(parts) => {
            let parens = product_in_parens(place);
            are_parts_within(parts.as_slice(), Place::InProduct, parens, room)
        }
    }
}

/// The same of the parts of a sum or a product.
#[cycle(depths)]
fn are_parts_within(parts: &[Expr], place: Place, parens: bool, room: usize) -> bool
    ensures { result ≡ nat_le ((if parens then 1 else 0) + greatest (map (λ part. depth part place) parts.now)) room }
{
    if !parens {
        return are_within(parts, place, room);
    }
    room > 0 && are_within(parts, place, room - 1)
}

#[cycle(depths)]
fn are_within(parts: &[Expr], place: Place, room: usize) -> bool
    ensures { result ≡ nat_le (greatest (map (λ part. depth part place) parts.now)) room }
{
    for part in parts {
        if !is_within(part, place, room) {
            return false;
        }
    }
    true
}

/// Whether an expression that stands alone is valid and no deeper than a text may be.
fn is_valid_constraint(expr: &Expr) -> bool
    ensures { result ≡ (is_valid_expr expr.now && nat_le (depth expr.now Alone) max_open) }
{
    // What is within the limit is no deep recursion for what comes second.
    is_within(expr, Place::Alone, MAX_OPEN) && is_valid_expr(expr)
}

fn is_valid_term(term: &Term) -> bool
    ensures { result ≡ is_valid_term term.now }
{
    is_number(term.coefficient) && is_name(term.column.as_slice())
}

fn are_valid_terms(terms: &[Term]) -> bool
    ensures { result ≡ list_all is_valid_term terms.now }
{
    terms.iter().all(|term| is_valid_term(term))
}

/// A column and two numbers.
fn is_valid_shift(column: &Name, first: u128, second: u128) -> bool
    ensures { result ≡ (is_name column.now && is_number first && is_number second) }
{
    is_name(column.as_slice()) && is_number(first) && is_number(second)
}

fn is_valid_form(form: &VirtualForm) -> bool
    ensures { result ≡ is_valid_form form.now }
{
    match form {
        VirtualForm::Shl {
            column,
            block,
            offset,
        } => is_valid_shift(column, *block, *offset),
        VirtualForm::Shr {
            column,
            block,
            offset,
        } => is_valid_shift(column, *block, *offset),
        VirtualForm::Rol {
            column,
            block,
            offset,
        } => is_valid_shift(column, *block, *offset),
        VirtualForm::Pack { column, log } => is_name(column.as_slice()) && is_number(*log),
        VirtualForm::Project { column, log, index } => is_valid_shift(column, *log, *index),
        VirtualForm::Linear { constant, terms } => {
            is_number(*constant)
                && has_member(terms.as_slice())
                && are_valid_terms(terms.as_slice())
        }
    }
}

fn is_selector(selector: &Option<Name>) -> bool
    ensures { result ≡ is_selector selector.now }
{
    match selector {
        None => true,
        Some(name) => is_name(name.as_slice()),
    }
}

fn is_valid_item(item: &Item) -> bool
    ensures { result ≡ is_valid_item item.now }
{
    match item {
        Item::Column {
            name,
            level,
            log_values,
        } => is_name(name.as_slice()) && *level <= MAX_LEVEL && *log_values <= MAX_LOG_VALUES,
        Item::Virtual { name, form } => is_name(name.as_slice()) && is_valid_form(form),
        Item::Zero { name, expr } => { is_name(name.as_slice()) && is_valid_constraint(expr) }
        Item::Flush {
            side: _,
            channel,
            columns,
            selector,
        } => {
            is_name(channel.as_slice())
                && has_member(columns.as_slice())
                && are_names(columns.as_slice())
                && is_selector(selector)
        }
    }
}

fn are_valid_items(items: &[Item]) -> bool
    ensures { result ≡ list_all is_valid_item items.now }
{
    items.iter().all(|item| is_valid_item(item))
}

fn is_valid_decl(decl: &Decl) -> bool
    ensures { result ≡ is_valid_decl decl.now }
{
    match decl {
        Decl::Channel { name, width } => is_name(name.as_slice()) && is_number(*width),
        Decl::Boundary {
            side: _,
            channel,
            values,
        } => {
            is_name(channel.as_slice())
                && has_member(values.as_slice())
                && are_numbers(values.as_slice())
        }
        Decl::Table { name, items } => {
            is_name(name.as_slice()) && are_valid_items(items.as_slice())
        }
    }
}

fn are_valid_decls(decls: &[Decl]) -> bool
    ensures { result ≡ list_all is_valid_decl decls.now }
{
    decls.iter().all(|decl| is_valid_decl(decl))
}

/// For how many declarations there is room behind one with its items.
fn room_behind(decl: &Decl, room: usize) -> Option<usize>
    ensures { result ≡ (if nat_le (declarations (decl.now ∷ [])) room then Some (room - declarations (decl.now ∷ [])) else None) }
{
    let room = room.checked_sub(1)?;
    match decl {
        Decl::Table { name: _, items } => room.checked_sub(items.len()),
        _ => Some(room),
    }
}

fn are_few(decls: &[Decl]) -> bool
    ensures { result ≡ nat_le (declarations decls.now) max_declarations }
{
    let mut room = MAX_DECLARATIONS;
    for decl in decls {
        match room_behind(decl, room) {
            Some(left) => room = left,
            None => return false,
        }
    }
    true
}

/// Whether a text can have these declarations.
pub(crate) fn is_valid(decls: &[Decl]) -> bool
    ensures { result ≡ is_valid decls.now }
{
    are_valid_decls(decls) && are_few(decls)
}
