//! The language of tables: its syntax tree, and the reader of a text.
#![tactic(auto)]

mod body;
mod byte_classes;
pub mod decl;
mod draft;
pub mod expr;
pub mod fault;
mod forms;
mod formula;
mod lexer;
pub mod limits;
pub mod no_memory;
mod number;
pub mod print;
mod progress;
pub mod read;
mod refusal;
mod slots;
mod state;
pub mod tables;
mod token;
mod valid;

pub use decl::{Decl, Decls, Item, Numbers, Side, TableItems, Term, Terms, VirtualForm};
pub use expr::{Expr, Exprs, Name, Names};
pub use fault::{TextFault, TextKind, TextStop};
pub use no_memory::NoMemory;
pub use print::print_tables;
pub use read::read_tables;
pub use tables::Tables;
