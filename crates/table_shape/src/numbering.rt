//! Names numbered in the order of their declarations.

ghost use Rattle.std.specs.Prelude.{◌≡◌, ◌<◌, ◌^◌, ◌++◌, ◌∷◌, [], false, length, OnOk};
ghost use Rattle.std.specs.List.{list_any, position_from};
ghost use Rattle.std.specs.Str.{bytes_eq};

use indexmap::IndexSet;
use std::alloc::{AllocError, Global};
use std::marker::Model;
use table_text::Name;

/// Names that differ, each with its place among them as its number.
#[derive(Drop)]
pub(crate) struct Numbers<'a> {
    names: IndexSet<&'a [u8]>,
}

impl<'a> Model for Numbers<'a> {
    ghost use Rattle.std.specs.Prelude.{List, ℕ, map};

    ghost Value = { List (List ℕ) };

    ghost view = { λ s. map (λ k. k.now) s.names.keys };
}

impl<'a> Numbers<'a> {
    /// No names.
    pub(crate) fn new(alloc: Global) -> Numbers<'a>
        ensures { result ≡ [] }
    {
        Numbers {
            names: IndexSet::new(alloc),
        }
    }

    /// The number of a name.
    pub(crate) fn number_of(&self, name: &Name) -> Option<u32>
        requires { length self.now < 2 ^ 32 }
        ensures { result ≡ position_from (λ n. bytes_eq name.now n) 0 self.now }
    {
        match self.names.get_index_of(name.as_slice()) {
            Some(number) => Some(number as u32),
            None => None,
        }
    }

    /// Whether the name is there.
    pub(crate) fn has(&self, name: &Name) -> bool
        ensures { result ≡ list_any (λ n. bytes_eq name.now n) self.now }
    {
        self.names.contains(name.as_slice())
    }

    /// One name more, which is new.
    pub(crate) fn add(&mut self, name: &'a Name) -> Result<(), AllocError>
        requires { list_any (λ n. bytes_eq name.now n) self.old ≡ false }
        ensures { OnOk result (self.new ≡ self.old ++ name.now ∷ []) }
    {
        self.names.insert(name.as_slice())?;
        Ok(())
    }
}
