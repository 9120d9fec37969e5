//! Lists of elements of 128 bits.

ghost use Rattle.std.specs.Prelude.{◌≡◌, ◌++◌, ◌∷◌, [], List, ℕ, OnErr, OnOk};
ghost use Rattle.tower_laws.specs.Lists.{AllFit};

use crate::element::Tower;
use crate::level7::B128;
use std::alloc::Global;
use std::marker::Model;

/// There is no memory left for what a call was to keep.
#[derive(Clone, Copy, PartialEq, Eq, Debug)]
pub struct NoMemory;

/// A list of elements. A contract sees the list of their numbers.
#[derive(Drop, Debug)]
pub struct Values {
    items: Vec<B128>,
}

impl Model for Values {
    ghost Value = { List ℕ };

    ghost view = { λ values. values.items.items };
}

impl Values {
    /// The empty list, which takes its memory from `alloc` as it grows.
    pub fn new(alloc: Global) -> Values
        ensures { result ≡ [] }
    {
        Values {
            items: Vec::new(alloc),
        }
    }

    /// The list of what a `Vec` holds, in its memory.
    pub fn from_vec(items: Vec<B128>) -> Values
        ensures { result ≡ items.items }
    {
        Values { items }
    }

    /// The `Vec` of the list, in the same memory.
    pub fn into_vec(self) -> Vec<B128>
        ensures { result.items ≡ self }
    {
        let Values { items } = self;
        items
    }

    /// Appends an element.
    pub fn push(&mut self, item: B128) -> Result<(), NoMemory>
        ensures ok { OnOk result (self.new ≡ self.old ++ item ∷ []) }
        ensures err { OnErr result (self.new ≡ self.old) }
    {
        match self.items.push(item) {
            Ok(()) => Ok(()),
            Err(_) => Err(NoMemory),
        }
    }

    pub fn as_slice(&self) -> &[B128]
        ensures { result.now ≡ self.now }
    {
        self.items.as_slice()
    }
}

/// The numbers of a list of elements are below 2^128.
pub fn numbers_fit(values: &[B128])
    ensures { AllFit 7 values.now }
{
    for value in values {
        let _number = value.number();
    }
}
