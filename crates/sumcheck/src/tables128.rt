//! Lists of tables.

ghost use Rattle.std.specs.Prelude.{◌≡◌, ◌++◌, ◌∷◌, [], List, ℕ, OnErr, OnOk};

use crate::no_memory::NoMemory;
use std::alloc::Global;
use std::marker::Model;
use tower_field::Values;

/// A list of tables of elements. A contract sees the lists of their numbers.
#[derive(Drop)]
pub struct Tables128 {
    items: Vec<Values>,
}

impl Model for Tables128 {
    ghost Value = { List (List ℕ) };

    ghost view = { λ tables. tables.items.items };
}

impl Tables128 {
    /// The empty list, which takes its memory from `alloc` as it grows.
    pub fn new(alloc: Global) -> Tables128
        ensures { result ≡ [] }
    {
        Tables128 {
            items: Vec::new(alloc),
        }
    }

    /// The list of what a `Vec` holds, in its memory.
    pub fn from_vec(items: Vec<Values>) -> Tables128
        ensures { result ≡ items.items }
    {
        Tables128 { items }
    }

    /// The `Vec` of the list, in the same memory.
    pub fn into_vec(self) -> Vec<Values>
        ensures { result.items ≡ self }
    {
        let Tables128 { items } = self;
        items
    }

    /// Appends a table.
    pub fn push(&mut self, item: Values) -> Result<(), NoMemory>
        ensures ok { OnOk result (self.new ≡ self.old ++ item ∷ []) }
        ensures err { OnErr result (self.new ≡ self.old) }
    {
        match self.items.push(item) {
            Ok(()) => Ok(()),
            Err(_) => Err(NoMemory),
        }
    }

    pub fn as_slice(&self) -> &[Values]
        ensures { result.now ≡ self.now }
    {
        self.items.as_slice()
    }
}
