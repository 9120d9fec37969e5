//! Products of many elements with one.

ghost use Rattle.std.specs.Prelude.{◌≡◌, ℕ, ◌+◌, ◌*◌, ◌%◌, ◌^◌, ◌<◌, ◌≤◌, [], length, map, vec_capacity, IfOk};
ghost use Rattle.tower_laws.specs.Tower.{mul};
ghost use Rattle.cube_laws.specs.Extension.{fold_low};
ghost use Rattle.packed_words.specs.Multiples.{entries};

use crate::element::element_of;
use crate::no_memory::NoMemory;
use std::alloc::Global;
use std::marker::Model;
use tower_field::{B128, Tower};

/// The products of one element with each byte at each of the 16 places of a number. A contract
/// sees the element.
///
/// It takes 64 KiB, once, and pays from some 200 products on. Those of another element can be made
/// in the same memory.
#[derive(Drop)]
pub struct Multiples {
    factor: B128,
    products: Vec<B128>,
}

impl Model for Multiples {
    ghost use Rattle.std.specs.Prelude.{◌≡◌, ℕ, ◌≤◌, vec_capacity};
    ghost use Rattle.packed_words.specs.Multiples.{entries};

    ghost Value = { ℕ };

    ghost view = { λ m. m.factor };

    ghost invariant = { λ m. record { made : m.products.items ≡ entries m.factor 4096; room : 4096 ≤ vec_capacity m.products } };
}

/// Appends the products with the bytes that have this bit as their highest.
fn add_products(products: &mut Vec<B128>, factor: B128, place: u32, bit: u32)
    requires place_exists { place < 16 }
    requires bit_exists { bit < 8 }
    requires so_far { products.old.items ≡ entries factor (256 * place + 2 ^ bit) }
    requires room { 4096 ≤ vec_capacity products.old }
    ensures made { products.new.items ≡ entries factor (256 * place + 2 ^ (bit + 1)) }
    ensures room { 4096 ≤ vec_capacity products.new }
{
    let step = factor * element_of(1 << (8 * place + bit));
    let from = 256 * place as usize;
    let count = 1usize << bit;
    for k in 0..count {
        let product = products[from + k] + step;
        if products.push(product).is_err() {
            unreachable!();
        }
    }
}

/// Appends the products with the bytes at one place.
fn add_place(products: &mut Vec<B128>, factor: B128, place: u32)
    requires place_exists { place < 16 }
    requires so_far { products.old.items ≡ entries factor (256 * place) }
    requires room { 4096 ≤ vec_capacity products.old }
    ensures made { products.new.items ≡ entries factor (256 * (place + 1)) }
    ensures room { 4096 ≤ vec_capacity products.new }
{
    if products.push(B128::ZERO).is_err() {
        unreachable!();
    }
    for bit in 0..8 {
        add_products(products, factor, place, bit);
    }
}

/// Makes the products in memory that has room for them.
fn make(products: &mut Vec<B128>, factor: B128)
    requires none { products.old.items ≡ [] }
    requires room { 4096 ≤ vec_capacity products.old }
    ensures made { products.new.items ≡ entries factor 4096 }
    ensures room { 4096 ≤ vec_capacity products.new }
{
    for place in 0..16 {
        add_place(products, factor, place);
    }
}

impl Multiples {
    /// Those of `factor`.
    pub fn new(alloc: Global, factor: B128) -> Result<Multiples, NoMemory>
        ensures { IfOk result (λ m. m ≡ factor) }
    {
        let mut products = Vec::with_capacity(alloc, 4096)?;
        make(&mut products, factor);
        Ok(Multiples { factor, products })
    }

    /// Those of another factor, in the same memory.
    pub fn set(&mut self, factor: B128)
        ensures { self.new ≡ factor }
    {
        self.factor = factor;
        self.products.clear();
        make(&mut self.products, factor);
    }

    /// The product with `value`.
    #[inline(always)]
    pub fn times(&self, value: B128) -> B128
        ensures { result ≡ mul self.now value }
    {
        let number = value.number();
        let mut sum = B128::ZERO;
        for place in 0..16 {
            sum = sum + self.products[256 * place + (number >> (8 * place) & 255) as usize];
        }
        sum
    }

    /// Multiplies each element of a list.
    pub fn scale(&self, values: &mut [B128])
        ensures { values.new ≡ map (mul self.now) values.old }
    {
        for i in 0..values.len() {
            values[i] = self.times(values[i]);
        }
    }

    /// Sets the lowest variable of a table, in its memory.
    pub fn fold_low(&self, table: &mut Vec<B128>)
        requires pairs { length table.old.items % 2 ≡ 0 }
        ensures { table.new.items ≡ fold_low self.now table.old.items }
    {
        let half = table.len() / 2;
        for i in 0..half {
            let low = table[2 * i];
            table[i] = low + self.times(low + table[2 * i + 1]);
        }
        table.truncate(half);
    }
}
