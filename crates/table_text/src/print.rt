//! The canonical text of declarations.

ghost use Rattle.std.specs.Prelude.{◌≡◌, ◌≤◌, [], ◌∷◌, ◌++◌, map, codes, OnOk, IfOk};
ghost use Rattle.std.specs.List.{flat_map};
ghost use Rattle.std.specs.Fmt.{decimal};
ghost use Rattle.table_text.specs.Grammar.{side_word, type_word};
ghost use Rattle.table_text.specs.Faults.{IsTablesText};
ghost use Rattle.table_text.specs.Limits.{max_level, max_log_values};
ghost use Rattle.table_text.specs.Valid.{ItemLevelsFit, LevelsFit};
ghost use Rattle.table_text.specs.Canonical.{joined, tuple, in_parens, sum_in_parens, product_in_parens, expr_text, term_text, constant_texts, shift_text, form_text, values_text, selector_text, item_text, item_line, decl_text, canonical};

use crate::decl::{Decl, Item, Side, Term, VirtualForm};
use crate::expr::{Expr, Name};
use crate::no_memory::NoMemory;
use crate::tables::Tables;
use std::alloc::{AllocError, Global};
use std::marker::Model;

/// Where an expression stands.
#[derive(Clone, Copy)]
pub(crate) enum Place {
    Alone,
    InSum,
    InProduct,
}

/// A text that grows.
#[derive(Drop)]
struct Printer {
    alloc: Global,
    text: Vec<u8>,
}

impl Model for Printer {
    ghost use Rattle.std.specs.Prelude.{ℕ, List};

    ghost Value = { List ℕ };

    ghost view = { λ p. p.text.items };
}

pub(crate) fn sum_in_parens(place: Place) -> bool
    ensures { result ≡ sum_in_parens place }
{
    !matches!(place, Place::Alone)
}

pub(crate) fn product_in_parens(place: Place) -> bool
    ensures { result ≡ product_in_parens place }
{
    matches!(place, Place::InProduct)
}

fn side_word(side: Side) -> &'static [u8]
    ensures { result.now ≡ side_word side }
{
    match side {
        Side::Push => b"push",
        Side::Pull => b"pull",
    }
}

/// The word of a type's level.
fn type_word(level: u32) -> &'static [u8]
    requires { level ≤ max_level }
    ensures { result.now ≡ type_word level }
{
    match level {
        0 => b"b1",
        1 => b"b2",
        2 => b"b4",
        3 => b"b8",
        4 => b"b16",
        5 => b"b32",
        6 => b"b64",
        _ => b"b128",
    }
}

impl Printer {
    fn put(&mut self, piece: &[u8]) -> Result<(), AllocError>
        ensures { OnOk result (self.new ≡ self.old ++ piece.now) }
    {
        self.text.extend_from_slice(piece)
    }

    fn number(&mut self, number: u128) -> Result<(), AllocError>
        ensures { OnOk result (self.new ≡ self.old ++ decimal number) }
    {
        let digits = format!(in self.alloc; "{number}")?;
        self.put(digits.as_bytes())
    }

    fn numbers(&mut self, numbers: &[u128]) -> Result<(), AllocError>
        ensures { OnOk result (self.new ≡ self.old ++ joined (codes ", ") (map decimal numbers.now)) }
    {
        let Some((first, others)) = numbers.split_first() else {
            return Ok(());
        };
        self.number(*first)?;
        for number in others {
            self.put(b", ")?;
            self.number(*number)?;
        }
        Ok(())
    }

    /// A tuple of numbers.
    fn values(&mut self, values: &[u128]) -> Result<(), AllocError>
        ensures { OnOk result (self.new ≡ self.old ++ tuple (map decimal values.now)) }
    {
        self.put(b"(")?;
        self.numbers(values)?;
        self.put(b")")
    }

    /// A tuple of names.
    fn columns(&mut self, columns: &[Name]) -> Result<(), AllocError>
        ensures { OnOk result (self.new ≡ self.old ++ tuple columns.now) }
    {
        self.put(b"(")?;
        self.names(columns)?;
        self.put(b")")
    }

    fn names(&mut self, names: &[Name]) -> Result<(), AllocError>
        ensures { OnOk result (self.new ≡ self.old ++ joined (codes ", ") names.now) }
    {
        let Some((first, others)) = names.split_first() else {
            return Ok(());
        };
        self.put(first.as_slice())?;
        for name in others {
            self.put(b", ")?;
            self.put(name.as_slice())?;
        }
        Ok(())
    }

    #[cycle(expressions)]
    fn expr(&mut self, expr: &Expr, place: Place) -> Result<(), AllocError>
        ensures { OnOk result (self.new ≡ self.old ++ expr_text expr.now place) }
    {
        match expr {
            Expr::Number(number) => self.number(*number),
            Expr::Column(name) => self.put(name.as_slice()),
            Expr::Sum(parts) => {
                let parens = sum_in_parens(place);
                self.parts(parts.as_slice(), b" + ", Place::InSum, parens)
            }
            Expr::Product(parts) => {
                let parens = product_in_parens(place);
                self.parts(parts.as_slice(), b" * ", Place::InProduct, parens)
            }
        }
    }

    /// The parts of a sum or a product.
    #[cycle(expressions)]
    fn parts(
        &mut self,
        parts: &[Expr],
        sign: &[u8],
        place: Place,
        parens: bool,
    ) -> Result<(), AllocError>
        ensures { OnOk result (self.new ≡ self.old ++ in_parens parens (joined sign.now (map (λ part. expr_text part place) parts.now))) }
    {
        if !parens {
            return self.members(parts, sign, place);
        }
        self.put(b"(")?;
        self.members(parts, sign, place)?;
        self.put(b")")
    }

    #[cycle(expressions)]
    fn members(&mut self, parts: &[Expr], sign: &[u8], place: Place) -> Result<(), AllocError>
        ensures { OnOk result (self.new ≡ self.old ++ joined sign.now (map (λ part. expr_text part place) parts.now)) }
    {
        let Some((first, others)) = parts.split_first() else {
            return Ok(());
        };
        self.expr(first, place)?;
        for part in others {
            self.put(sign)?;
            self.expr(part, place)?;
        }
        Ok(())
    }

    /// A word and a name.
    fn named(&mut self, word: &[u8], name: &Name) -> Result<(), AllocError>
        ensures { OnOk result (self.new ≡ self.old ++ (word.now ++ name.now)) }
    {
        self.put(word)?;
        self.put(name.as_slice())
    }

    /// A number behind a comma.
    fn argument(&mut self, number: u128) -> Result<(), AllocError>
        ensures { OnOk result (self.new ≡ self.old ++ (codes ", " ++ decimal number)) }
    {
        self.put(b", ")?;
        self.number(number)
    }

    /// A column and two numbers.
    fn shift(
        &mut self,
        word: &[u8],
        column: &Name,
        first: u128,
        second: u128,
    ) -> Result<(), AllocError>
        ensures { OnOk result (self.new ≡ self.old ++ shift_text word.now column.now first second) }
    {
        self.put(word)?;
        self.named(b"(", column)?;
        self.argument(first)?;
        self.argument(second)?;
        self.put(b")")
    }

    fn term(&mut self, term: &Term) -> Result<(), AllocError>
        ensures { OnOk result (self.new ≡ self.old ++ term_text term.now) }
    {
        if term.coefficient != 1 {
            self.number(term.coefficient)?;
            self.put(b" * ")?;
        }
        self.put(term.column.as_slice())
    }

    fn more_terms(&mut self, terms: &[Term]) -> Result<(), AllocError>
        ensures { OnOk result (self.new ≡ self.old ++ flat_map (λ t. codes " + " ++ t) (map term_text terms.now)) }
    {
        for term in terms {
            self.put(b" + ")?;
            self.term(term)?;
        }
        Ok(())
    }

    /// The constant, unless it is 0, and the terms.
    fn linear(&mut self, constant: u128, terms: &[Term]) -> Result<(), AllocError>
        ensures { OnOk result (self.new ≡ self.old ++ joined (codes " + ") (constant_texts constant ++ map term_text terms.now)) }
    {
        if constant != 0 {
            self.number(constant)?;
            return self.more_terms(terms);
        }
        let Some((first, others)) = terms.split_first() else {
            return Ok(());
        };
        self.term(first)?;
        self.more_terms(others)
    }

    fn form(&mut self, form: &VirtualForm) -> Result<(), AllocError>
        ensures { OnOk result (self.new ≡ self.old ++ form_text form.now) }
    {
        match form {
            VirtualForm::Shl {
                column,
                block,
                offset,
            } => self.shift(b"shl", column, *block, *offset),
            VirtualForm::Shr {
                column,
                block,
                offset,
            } => self.shift(b"shr", column, *block, *offset),
            VirtualForm::Rol {
                column,
                block,
                offset,
            } => self.shift(b"rol", column, *block, *offset),
            VirtualForm::Project { column, log, index } => {
                self.shift(b"project", column, *log, *index)
            }
            VirtualForm::Pack { column, log } => {
                self.named(b"pack(", column)?;
                self.argument(*log)?;
                self.put(b")")
            }
            VirtualForm::Linear { constant, terms } => {
                self.put(b"linear(")?;
                self.linear(*constant, terms.as_slice())?;
                self.put(b")")
            }
        }
    }

    /// The number of values per row, unless it is 1.
    fn values_per_row(&mut self, log_values: u32) -> Result<(), AllocError>
        requires { log_values ≤ max_log_values }
        ensures { OnOk result (self.new ≡ self.old ++ values_text log_values) }
    {
        if log_values == 0 {
            return Ok(());
        }
        self.put(b" x ")?;
        self.number(1 << log_values)
    }

    fn selector(&mut self, selector: &Option<Name>) -> Result<(), AllocError>
        ensures { OnOk result (self.new ≡ self.old ++ selector_text selector.now) }
    {
        match selector {
            None => Ok(()),
            Some(name) => {
                self.put(b" if ")?;
                self.put(name.as_slice())
            }
        }
    }

    fn item(&mut self, item: &Item) -> Result<(), AllocError>
        requires { ItemLevelsFit (item.now ∷ []) }
        ensures { OnOk result (self.new ≡ self.old ++ item_text item.now) }
    {
        match item {
            Item::Column {
                name,
                level,
                log_values,
            } => {
                self.named(b"column ", name)?;
                self.put(b" : ")?;
                self.put(type_word(*level))?;
                self.values_per_row(*log_values)
            }
            Item::Virtual { name, form } => {
                self.named(b"virtual ", name)?;
                self.put(b" = ")?;
                self.form(form)
            }
            Item::Zero { name, expr } => {
                self.named(b"zero ", name)?;
                self.put(b" : ")?;
                self.expr(expr, Place::Alone)
            }
            Item::Flush {
                side,
                channel,
                columns,
                selector,
            } => {
                self.put(side_word(*side))?;
                self.named(b" ", channel)?;
                self.put(b" ")?;
                self.columns(columns.as_slice())?;
                self.selector(selector)
            }
        }
    }

    fn items(&mut self, items: &[Item]) -> Result<(), AllocError>
        requires { ItemLevelsFit items.now }
        ensures { OnOk result (self.new ≡ self.old ++ flat_map item_line items.now) }
    {
        for item in items {
            self.put(b"  ")?;
            self.item(item)?;
            self.put(b";\n")?;
        }
        Ok(())
    }

    fn decl(&mut self, decl: &Decl) -> Result<(), AllocError>
        requires { LevelsFit (decl.now ∷ []) }
        ensures { OnOk result (self.new ≡ self.old ++ decl_text decl.now) }
    {
        match decl {
            Decl::Channel { name, width } => {
                self.named(b"channel ", name)?;
                self.put(b" : ")?;
                self.number(*width)?;
                self.put(b";\n")
            }
            Decl::Boundary {
                side,
                channel,
                values,
            } => {
                self.put(b"boundary ")?;
                self.put(side_word(*side))?;
                self.named(b" ", channel)?;
                self.put(b" ")?;
                self.values(values.as_slice())?;
                self.put(b";\n")
            }
            Decl::Table { name, items } => {
                self.named(b"table ", name)?;
                self.put(b" {\n")?;
                self.items(items.as_slice())?;
                self.put(b"}\n")
            }
        }
    }

    fn decls(&mut self, decls: &[Decl]) -> Result<(), AllocError>
        requires { LevelsFit decls.now }
        ensures { OnOk result (self.new ≡ self.old ++ canonical decls.now) }
    {
        for decl in decls {
            self.decl(decl)?;
        }
        Ok(())
    }
}

/// The canonical text, which is a text of the same declarations.
pub fn print_tables(alloc: Global, tables: &Tables) -> Result<Vec<u8>, NoMemory>
    ensures text { IfOk result (λ text. text.items ≡ canonical tables.now) }
    ensures again { IfOk result (λ text. IsTablesText text.items tables.now) }
{
    let mut printer = Printer {
        alloc,
        text: Vec::new(alloc),
    };
    printer.decls(tables.decls())?;
    Ok(printer.text)
}
