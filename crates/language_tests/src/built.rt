//! Declarations made by hand.

use std::alloc::{AllocError, Global};
use std::test::Fail;
use table_text::{
    Decl, Decls, Expr, Exprs, Item, Name, Names, Numbers, Side, TableItems, Tables, Term, Terms,
    VirtualForm,
};

/// Declarations, by what matters of them.
enum Given {
    /// A channel of this name.
    Named(&'static str),
    /// A boundary of so many values.
    Values(usize),
    /// So many channels.
    Channels(usize),
    /// A table with so many items.
    Items(usize),
    /// A table with one item.
    One(Part),
}

/// An item, by what matters of it.
enum Part {
    /// A column of this level and this logarithm of values per row.
    Column(u32, u32),
    Shl,
    Shr,
    Rol,
    Pack,
    Project,
    /// A virtual column of so many terms.
    Linear(usize),
    /// A sum of so many parts.
    Sum(usize),
    /// A product of so many factors.
    Product(usize),
    /// So many sums, each but the first inside another.
    Nested(usize),
    /// A flush of so many columns.
    Flush(usize),
    /// A flush with this selector.
    Selected(&'static str),
}

static CASES: [(Given, bool); 33] = [
    (Given::Named("b32"), true),
    (
        Given::Named("Aa_9aaaaaaaaaaaaaaaaaaaaaaaaaaaaaaaaaaaaaaaaaaaaaaaaaaaaaaaaaaaa"),
        true,
    ),
    (
        Given::Named("Aa_9aaaaaaaaaaaaaaaaaaaaaaaaaaaaaaaaaaaaaaaaaaaaaaaaaaaaaaaaaaaaa"),
        false,
    ),
    (Given::Named(""), false),
    (Given::Named("_a"), false),
    (Given::Named("a b"), false),
    (Given::Named("table"), false),
    (Given::Values(1), true),
    (Given::Values(0), false),
    (Given::Channels(65535), true),
    (Given::Channels(65536), false),
    (Given::Items(65534), true),
    (Given::Items(65535), false),
    (Given::One(Part::Column(7, 7)), true),
    (Given::One(Part::Column(8, 0)), false),
    (Given::One(Part::Column(0, 8)), false),
    (Given::One(Part::Shl), true),
    (Given::One(Part::Shr), true),
    (Given::One(Part::Rol), true),
    (Given::One(Part::Pack), true),
    (Given::One(Part::Project), true),
    (Given::One(Part::Linear(1)), true),
    (Given::One(Part::Linear(0)), false),
    (Given::One(Part::Sum(2)), true),
    (Given::One(Part::Sum(1)), false),
    (Given::One(Part::Product(2)), true),
    (Given::One(Part::Product(1)), false),
    (Given::One(Part::Nested(33)), true),
    (Given::One(Part::Nested(34)), false),
    (Given::One(Part::Flush(1)), true),
    (Given::One(Part::Flush(0)), false),
    (Given::One(Part::Selected("s")), true),
    (Given::One(Part::Selected("if")), false),
];

fn name(alloc: Global, word: &str) -> Result<Name, AllocError> {
    Name::from_slice(alloc, word.as_bytes())
}

fn columns(alloc: Global, count: usize) -> Result<Names, AllocError> {
    let mut columns = Names::new(alloc);
    for _ in 0..count {
        columns.push(name(alloc, "a")?)?;
    }
    Ok(columns)
}

fn terms(alloc: Global, count: usize) -> Result<Terms, AllocError> {
    let mut terms = Terms::new(alloc);
    for _ in 0..count {
        terms.push(Term {
            coefficient: 1,
            column: name(alloc, "a")?,
        })?;
    }
    Ok(terms)
}

fn parts(alloc: Global, count: usize) -> Result<Exprs, AllocError> {
    let mut parts = Exprs::new(alloc);
    for _ in 0..count {
        parts.push(Expr::Column(name(alloc, "a")?))?;
    }
    Ok(parts)
}

fn nested(alloc: Global, count: usize) -> Result<Expr, AllocError> {
    let mut expr = Expr::Number(7);
    for _ in 0..count {
        let mut parts = parts(alloc, 1)?;
        parts.push(expr)?;
        expr = Expr::Sum(parts);
    }
    Ok(expr)
}

fn form(alloc: Global, part: &Part) -> Result<VirtualForm, AllocError> {
    let column = name(alloc, "a")?;
    Ok(match part {
        Part::Shl => VirtualForm::Shl {
            column,
            block: 9,
            offset: u128::MAX,
        },
        Part::Shr => VirtualForm::Shr {
            column,
            block: 9,
            offset: u128::MAX,
        },
        Part::Rol => VirtualForm::Rol {
            column,
            block: 9,
            offset: u128::MAX,
        },
        Part::Pack => VirtualForm::Pack { column, log: 9 },
        Part::Linear(count) => VirtualForm::Linear {
            constant: 0,
            terms: terms(alloc, *count)?,
        },
        _ => VirtualForm::Project {
            column,
            log: 9,
            index: 9,
        },
    })
}

fn zero(alloc: Global, expr: Expr) -> Result<Item, AllocError> {
    Ok(Item::Zero {
        name: name(alloc, "a")?,
        expr,
    })
}

fn flush(alloc: Global, count: usize, selector: Option<Name>) -> Result<Item, AllocError> {
    Ok(Item::Flush {
        side: Side::Pull,
        channel: name(alloc, "c")?,
        columns: columns(alloc, count)?,
        selector,
    })
}

fn item(alloc: Global, part: &Part) -> Result<Item, AllocError> {
    match part {
        Part::Column(level, log_values) => Ok(Item::Column {
            name: name(alloc, "a")?,
            level: *level,
            log_values: *log_values,
        }),
        Part::Sum(count) => zero(alloc, Expr::Sum(parts(alloc, *count)?)),
        Part::Product(count) => zero(alloc, Expr::Product(parts(alloc, *count)?)),
        Part::Nested(count) => zero(alloc, nested(alloc, *count)?),
        Part::Flush(count) => flush(alloc, *count, None),
        Part::Selected(selector) => flush(alloc, 1, Some(name(alloc, selector)?)),
        _ => Ok(Item::Virtual {
            name: name(alloc, "a")?,
            form: form(alloc, part)?,
        }),
    }
}

fn table(alloc: Global, count: usize, part: &Part) -> Result<Decl, AllocError> {
    let mut items = TableItems::new(alloc);
    for _ in 0..count {
        items.push(item(alloc, part)?)?;
    }
    Ok(Decl::Table {
        name: name(alloc, "t")?,
        items,
    })
}

fn boundary(alloc: Global, count: usize) -> Result<Decl, AllocError> {
    let mut values = Numbers::new(alloc);
    for _ in 0..count {
        values.push(u128::MAX)?;
    }
    Ok(Decl::Boundary {
        side: Side::Push,
        channel: name(alloc, "c")?,
        values,
    })
}

fn channel(alloc: Global, word: &str) -> Result<Decl, AllocError> {
    Ok(Decl::Channel {
        name: name(alloc, word)?,
        width: u128::MAX,
    })
}

fn channels(alloc: Global, count: usize) -> Result<Decls, AllocError> {
    let mut decls = Decls::new(alloc);
    for _ in 0..count {
        decls.push(channel(alloc, "c")?)?;
    }
    Ok(decls)
}

fn one(alloc: Global, decl: Decl) -> Result<Decls, AllocError> {
    let mut decls = Decls::new(alloc);
    decls.push(decl)?;
    Ok(decls)
}

fn decls(alloc: Global, given: &Given) -> Result<Decls, AllocError> {
    match given {
        Given::Named(word) => one(alloc, channel(alloc, word)?),
        Given::Values(count) => one(alloc, boundary(alloc, *count)?),
        Given::Channels(count) => channels(alloc, *count),
        Given::Items(count) => one(alloc, table(alloc, *count, &Part::Column(0, 0))?),
        Given::One(part) => one(alloc, table(alloc, 1, part)?),
    }
}

#[test]
fn validity(rt: HostRuntime) -> Result<(), Fail> {
    for (at, (given, want)) in CASES.iter().enumerate() {
        let decls = decls(rt.alloc(), given)?;
        assert_eq!(rt; Tables::of(decls).is_some(), *want, "case {at}");
    }
    Ok(())
}
