//! A list of declarations that a text may have.

ghost use Rattle.std.specs.Prelude.{◌≡◌};

use crate::decl::{Decl, Decls};
use crate::valid::is_valid;
use std::marker::Model;

/// Valid declarations, in the order of their text.
#[derive(Debug, Drop)]
pub struct Tables {
    decls: Decls,
}

impl Model for Tables {
    ghost use Rattle.std.specs.Prelude.{List};
    ghost use Rattle.table_text.specs.declared.decl.Decl.{Decl};
    ghost use Rattle.std.specs.Coded.{codes};
    ghost use Rattle.table_text.specs.contracts.expr.Expr as expr;

    ghost Value = { List Decl };

    ghost coded = { Prim.hlevel (codes, expr.the_row.coded) };

    ghost use Rattle.std.specs.Prelude.{IsTrue};
    ghost use Rattle.table_text.specs.Valid.{is_valid};

    ghost view = { λ t. t.decls };

    ghost invariant = { λ t. IsTrue (is_valid t.decls) };
}

impl Tables {
    ghost use Rattle.std.specs.Prelude.{◌≤◌, IsTrue, if◌then◌else◌, Some, None};
    ghost use Rattle.table_text.specs.Limits.{max_declarations};
    ghost use Rattle.table_text.specs.Valid.{LevelsFit, declarations, is_valid};

    pub(crate) fn new(decls: Decls) -> Tables
        requires { IsTrue (is_valid decls) }
        ensures { result ≡ decls }
    {
        Tables { decls }
    }

    /// Some where the declarations are valid.
    pub fn of(decls: Decls) -> Option<Tables>
        ensures { result ≡ (if is_valid decls then Some decls else None) }
    {
        if is_valid(decls.as_slice()) {
            Some(Tables { decls })
        } else {
            None
        }
    }

    /// The declarations.
    pub fn decls(&self) -> &[Decl]
        ensures all { result.now ≡ self.now }
        ensures levels { LevelsFit self.now }
        ensures few { declarations self.now ≤ max_declarations }
        ensures valid { IsTrue (is_valid self.now) }
    {
        self.decls.as_slice()
    }
}
