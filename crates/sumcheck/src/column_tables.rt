//! Lists of values for columns.

ghost use Rattle.std.specs.Prelude.{◌≡◌, ◌++◌, ◌∷◌, [], None, OnErr, OnOk, option_copied};

use crate::no_memory::NoMemory;
use std::alloc::Global;
use std::marker::Model;
use tower_field::{B128, Values};

/// The list of a column.
#[derive(Drop)]
pub struct ColumnTable {
    table: u32,
    column: u32,
    values: Values,
}

/// Lists of values for columns of tables. A contract sees them in the order in which they were added.
#[derive(Drop)]
pub struct ColumnTables {
    kept: Vec<ColumnTable>,
}

impl Model for ColumnTables {
    ghost use Rattle.std.specs.Prelude.{List};
    ghost use Rattle.sumcheck.specs.declared.column_tables.ColumnTable.{ColumnTable};

    ghost Value = { List ColumnTable };

    ghost view = { λ tables. tables.kept.items };
}

impl ColumnTables {
    ghost use Rattle.sumcheck.specs.ColumnTables.{list_of};

    /// No lists. It takes its memory from `alloc` as it grows.
    pub fn new(alloc: Global) -> ColumnTables
        ensures { result ≡ [] }
    {
        ColumnTables {
            kept: Vec::new(alloc),
        }
    }

    /// Keeps a list for a column that has none yet.
    pub fn add(&mut self, table: u32, column: u32, values: Vec<B128>) -> Result<(), NoMemory>
        requires { list_of self.old table column ≡ None }
        ensures ok { OnOk result (self.new ≡ self.old ++ record { table = table; column = column; values = values.items } ∷ []) }
        ensures err { OnErr result (self.new ≡ self.old) }
    {
        let added = ColumnTable {
            table,
            column,
            values: Values::from_vec(values),
        };
        match self.kept.push(added) {
            Ok(()) => Ok(()),
            Err(_) => Err(NoMemory),
        }
    }

    /// The list of a column, if one was added. It takes no memory.
    pub fn get(&self, table: u32, column: u32) -> Option<&[B128]>
        ensures { option_copied result ≡ list_of self.now table column }
    {
        for kept in &self.kept {
            if kept.table == table && kept.column == column {
                return Some(kept.values.as_slice());
            }
        }
        None
    }
}
