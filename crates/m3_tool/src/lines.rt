//! The lines that are printed.

ghost use Rattle.std.specs.Prelude.{◌≡◌, ◌++◌, ◌<◌, ℕ, List, length, map, IfOk, OnOk, codes, false};
ghost use Rattle.std.specs.Fmt.{decimal, digit_glyph};
ghost use Rattle.table_text.specs.Canonical.{joined};
ghost use Rattle.table_shape.specs.Filling.{Filling};
ghost use Rattle.table_shape.specs.Satisfies.{IsFirstViolation};
ghost use Rattle.m3_judge.specs.Judging.{violation_of};
ghost use Rattle.oracle_lowering.specs.Products.{ArePairs};
ghost use Rattle.m3_tool.specs.Lines.{channel_line, draw_line, entry_line, hex, holds_line, lowered_text, nonzero_line, number_line, plan_text, unequal_line, value_text, place_name, shape_fault_line, shape_kind_name, text_fault_line, text_kind_name, too_large_line, too_long_line, violated, violation_line, witness_fault_line, witness_kind_name};

use m3_judge::Violation;
use oracle_lowering::{Pair, Products};
use poly_forms::DrawKind;
use proof_plan::{Plan, PlanEntry};
use std::alloc::{AllocError, Global};
use table_shape::{ChannelShape, ConstraintShape, Shape, ShapeFault, ShapeKind, TableShape};
use table_text::{TextFault, TextKind};
use tower_field::{B128, Tower};
use witness_reader::{WitnessFault, WitnessKind, WitnessPlace};

/// The digit of a number below 16.
fn hex_digit(n: u8) -> u8
    requires { n < 16 }
    ensures { result ≡ digit_glyph false n }
{
    if n < 10 { b'0' + n } else { b'a' + (n - 10) }
}

/// A number in hexadecimal digits, without leading zeros.
fn hex(alloc: Global, n: u128) -> Result<Vec<u8>, AllocError>
    ensures { IfOk result (λ text. text.items ≡ hex n) }
{
    let mut text = Vec::new(alloc);
    let mut rest = n;
    for _digit in 0..64u32 {
        text.insert(0, hex_digit((rest % 16) as u8))?;
        rest /= 16;
        if rest == 0 {
            return Ok(text);
        }
    }
    Ok(text)
}

fn push(line: &mut Vec<u8>, text: &[u8]) -> Result<(), AllocError>
    ensures { OnOk result (line.new.items ≡ line.old.items ++ text.now) }
{
    line.extend_from_slice(text)
}

fn push_decimal(alloc: Global, line: &mut Vec<u8>, n: u64) -> Result<(), AllocError>
    ensures { OnOk result (line.new.items ≡ line.old.items ++ decimal n) }
{
    let text = format!(in alloc; "{n}")?;
    push(line, text.as_bytes())
}

fn push_hex(alloc: Global, line: &mut Vec<u8>, n: u128) -> Result<(), AllocError>
    ensures { OnOk result (line.new.items ≡ line.old.items ++ hex n) }
{
    let text = hex(alloc, n)?;
    push(line, text.as_slice())
}

/// Which table and which constraint a violation is of, as its line begins.
fn violated(
    alloc: Global,
    table: &TableShape,
    constraint: &ConstraintShape,
) -> Result<Vec<u8>, AllocError>
    ensures { IfOk result (λ line. line.items ≡ violated table.now constraint.now) }
{
    let mut line = Vec::new(alloc);
    push(&mut line, b"violated: table ")?;
    push(&mut line, table.name.as_slice())?;
    push(&mut line, b", zero ")?;
    push(&mut line, constraint.name.as_slice())?;
    Ok(line)
}

/// Where a constraint isn't 0.
#[derive(Clone, Copy)]
struct Place {
    row: u32,
    index: u32,
    value: B128,
}

/// The line of a constraint that isn't 0.
fn nonzero_line(
    alloc: Global,
    table: &TableShape,
    constraint: &ConstraintShape,
    place: Place,
) -> Result<Vec<u8>, AllocError>
    ensures { IfOk result (λ line. (t z : ℕ) → line.items ≡ nonzero_line table.now constraint.now (record { table = t; constraint = z; row = place.row; index = place.index; value = place.value })) }
{
    let mut line = violated(alloc, table, constraint)?;
    push(&mut line, b", row ")?;
    push_decimal(alloc, &mut line, place.row.into())?;
    push(&mut line, b", index ")?;
    push_decimal(alloc, &mut line, place.index.into())?;
    push(&mut line, b", value 0x")?;
    push_hex(alloc, &mut line, place.value.number())?;
    push(&mut line, b"\n")?;
    Ok(line)
}

/// Appends the number of an element.
fn push_value(alloc: Global, line: &mut Vec<u8>, value: B128) -> Result<(), AllocError>
    ensures { OnOk result (line.new.items ≡ line.old.items ++ value_text value) }
{
    push(line, b"0x")?;
    push_hex(alloc, line, value.number())
}

/// Appends the numbers of a tuple, with commas between them.
fn push_tuple(alloc: Global, line: &mut Vec<u8>, tuple: &[B128]) -> Result<(), AllocError>
    ensures { OnOk result (line.new.items ≡ line.old.items ++ joined (codes ", ") (map value_text tuple.now)) }
{
    let Some((first, others)) = tuple.split_first() else {
        return Ok(());
    };
    push_value(alloc, line, *first)?;
    for value in others {
        push(line, b", ")?;
        push_value(alloc, line, *value)?;
    }
    Ok(())
}

/// The line of a tuple that is pushed and pulled unequally often.
fn unequal_line(
    alloc: Global,
    channel: &ChannelShape,
    tuple: &[B128],
    pushed: u64,
    pulled: u64,
) -> Result<Vec<u8>, AllocError>
    ensures { IfOk result (λ line. (c : ℕ) → line.items ≡ unequal_line channel.now (record { channel = c; tuple = tuple.now; pushed = pushed; pulled = pulled })) }
{
    let mut line = Vec::new(alloc);
    push(&mut line, b"violated: channel ")?;
    push(&mut line, channel.name.as_slice())?;
    push(&mut line, b", tuple (")?;
    push_tuple(alloc, &mut line, tuple)?;
    push(&mut line, b"), pushed ")?;
    push_decimal(alloc, &mut line, pushed)?;
    push(&mut line, b", pulled ")?;
    push_decimal(alloc, &mut line, pulled)?;
    push(&mut line, b"\n")?;
    Ok(line)
}

/// The line of a violation.
pub fn violation_line(
    alloc: Global,
    shape: &Shape,
    violation: &Violation,
) -> Result<Vec<u8>, AllocError>
    requires { (rows : List ℕ) × (filling : Filling) × IsFirstViolation shape.now rows filling (violation_of violation.now) }
    ensures { IfOk result (λ line. (rows : List ℕ) (filling : Filling) (first : IsFirstViolation shape.now rows filling (violation_of violation.now)) → line.items ≡ violation_line shape.now rows filling (violation_of violation.now) first) }
{
    match violation {
        Violation::Constraint {
            table,
            constraint,
            row,
            index,
            value,
        } => {
            let table = &shape.tables()[*table as usize];
            let constraint = &table.constraints.as_slice()[*constraint as usize];
            let place = Place {
                row: *row,
                index: *index,
                value: *value,
            };
            nonzero_line(alloc, table, constraint, place)
        }
        Violation::Channel {
            channel,
            tuple,
            pushed,
            pulled,
        } => {
            let channel = &shape.channels()[*channel as usize];
            unequal_line(alloc, channel, tuple.as_slice(), *pushed, *pulled)
        }
    }
}

/// Appends the line of a channel's products.
fn push_channel(
    alloc: Global,
    text: &mut Vec<u8>,
    channel: &ChannelShape,
    pair: Pair,
) -> Result<(), AllocError>
    ensures { OnOk result (text.new.items ≡ text.old.items ++ channel_line channel.now.name pair.push pair.pull) }
{
    push(text, b"channel ")?;
    push(text, channel.name.as_slice())?;
    push(text, b" push ")?;
    push_value(alloc, text, pair.push)?;
    push(text, b" pull ")?;
    push_value(alloc, text, pair.pull)?;
    push(text, b"\n")
}

fn holds_line(holds: bool) -> &'static str
    ensures { result.now ≡ holds_line holds }
{
    if holds { "holds\n" } else { "fails\n" }
}

/// The lines of the channels' products, and whether the lowered statement holds.
pub fn lowered_text(
    alloc: Global,
    shape: &Shape,
    products: &Products,
) -> Result<Vec<u8>, AllocError>
    requires { length products.now.pairs ≡ length shape.now.channels }
    ensures { IfOk result (λ text. (rows : List ℕ) (filling : Filling) (a g : ℕ) → ArePairs shape.now rows filling a g products.now.pairs → text.items ≡ lowered_text shape.now rows filling a g products.now.holds) }
{
    let channels = shape.channels();
    let pairs = products.pairs.as_slice();
    let mut text = Vec::new(alloc);
    for c in 0..channels.len() {
        push_channel(alloc, &mut text, &channels[c], pairs[c])?;
    }
    push(&mut text, holds_line(products.holds).as_bytes())?;
    Ok(text)
}

/// The line of a counted draw, which is the entry of this number.
fn push_draw(
    alloc: Global,
    text: &mut Vec<u8>,
    number: u32,
    kind: DrawKind,
    count: u64,
) -> Result<(), AllocError>
    ensures { OnOk result (text.new.items ≡ text.old.items ++ draw_line number kind count) }
{
    push(text, b"draw ")?;
    push_decimal(alloc, text, number.into())?;
    push(text, b" ")?;
    push(text, kind.name().as_bytes())?;
    push(text, b" at most ")?;
    push_decimal(alloc, text, count)?;
    push(text, b"\n")
}

/// Appends the line of a draw, and nothing for another entry.
fn push_entry(
    alloc: Global,
    text: &mut Vec<u8>,
    number: u32,
    entry: PlanEntry,
) -> Result<(), AllocError>
    ensures { OnOk result (text.new.items ≡ text.old.items ++ entry_line number entry) }
{
    match entry {
        PlanEntry::Draw { kind, count } => push_draw(alloc, text, number, kind, count),
        _ => Ok(()),
    }
}

/// Appends a word and a number, as one line.
fn push_number(alloc: Global, text: &mut Vec<u8>, word: &str, n: u64) -> Result<(), AllocError>
    ensures { OnOk result (text.new.items ≡ text.old.items ++ number_line word.now n) }
{
    push(text, word.as_bytes())?;
    push(text, b" ")?;
    push_decimal(alloc, text, n)?;
    push(text, b"\n")
}

/// The lines of a plan: each counted draw, the sum of their counts, and how many bytes the proof
/// has.
pub fn plan_text(alloc: Global, plan: &Plan) -> Result<Vec<u8>, AllocError>
    ensures { IfOk result (λ text. text.items ≡ plan_text plan.now) }
{
    let mut text = Vec::new(alloc);
    for number in 0..plan.len() {
        push_entry(alloc, &mut text, number, plan.entry(number))?;
    }
    push_number(alloc, &mut text, "total", plan.total())?;
    push_number(alloc, &mut text, "bytes", plan.byte_length())?;
    Ok(text)
}

fn text_kind_name(kind: TextKind) -> &'static str
    ensures { result.now ≡ text_kind_name kind }
{
    match kind {
        TextKind::NotText => "NotText",
        TextKind::Unexpected => "Unexpected",
        TextKind::NumberTooWide => "NumberTooWide",
        TextKind::NameTooLong => "NameTooLong",
        TextKind::TooDeep => "TooDeep",
        TextKind::TooMany => "TooMany",
    }
}

/// The line of a fault of a text.
pub fn text_fault_line(alloc: Global, fault: TextFault) -> Result<Vec<u8>, AllocError>
    ensures { IfOk result (λ line. line.items ≡ text_fault_line fault) }
{
    let name = text_kind_name(fault.kind);
    let place = fault.place;
    let line = format!(in alloc; "tables: {name} at byte {place}\n")?;
    Ok(line.into_bytes())
}

fn shape_kind_name(kind: ShapeKind) -> &'static str
    ensures { result.now ≡ shape_kind_name kind }
{
    match kind {
        ShapeKind::UnknownName => "UnknownName",
        ShapeKind::DoubleName => "DoubleName",
        ShapeKind::LevelTooHigh => "LevelTooHigh",
        ShapeKind::UnequalWidth => "UnequalWidth",
        ShapeKind::BlockTooLong => "BlockTooLong",
        ShapeKind::OffsetOutOfRange => "OffsetOutOfRange",
        ShapeKind::RepeatedTerm => "RepeatedTerm",
        ShapeKind::DegreeTooHigh => "DegreeTooHigh",
        ShapeKind::TupleWidth => "TupleWidth",
        ShapeKind::NotOneValue => "NotOneValue",
        ShapeKind::SelectorNotBit => "SelectorNotBit",
        ShapeKind::TooMany => "TooMany",
    }
}

/// The line of a fault of a shape.
pub fn shape_fault_line(alloc: Global, fault: ShapeFault) -> Result<Vec<u8>, AllocError>
    ensures { IfOk result (λ line. line.items ≡ shape_fault_line fault) }
{
    let name = shape_kind_name(fault.kind);
    let item = fault.item;
    let line = format!(in alloc; "tables: {name} at item {item}\n")?;
    Ok(line.into_bytes())
}

fn witness_kind_name(kind: WitnessKind) -> &'static str
    ensures { result.now ≡ witness_kind_name kind }
{
    match kind {
        WitnessKind::NotJson => "NotJson",
        WitnessKind::NotAnObject => "NotAnObject",
        WitnessKind::MissingTable => "MissingTable",
        WitnessKind::BadRows => "BadRows",
        WitnessKind::MissingColumn => "MissingColumn",
        WitnessKind::NotAText => "NotAText",
        WitnessKind::BadHex => "BadHex",
        WitnessKind::WrongLength => "WrongLength",
        WitnessKind::PaddingBits => "PaddingBits",
        WitnessKind::ExtraColumn => "ExtraColumn",
        WitnessKind::ExtraTable => "ExtraTable",
    }
}

/// The line of a fault of a witness.
pub fn witness_fault_line(alloc: Global, fault: WitnessFault) -> Result<Vec<u8>, AllocError>
    ensures { IfOk result (λ line. line.items ≡ witness_fault_line fault) }
{
    let mut line = Vec::new(alloc);
    push(&mut line, b"witness: ")?;
    push(&mut line, witness_kind_name(fault.kind).as_bytes())?;
    push_place(alloc, &mut line, fault.place)?;
    push(&mut line, b"\n")?;
    Ok(line)
}

fn push_place(alloc: Global, line: &mut Vec<u8>, place: WitnessPlace) -> Result<(), AllocError>
    ensures { OnOk result (line.new.items ≡ line.old.items ++ place_name place) }
{
    match place {
        WitnessPlace::Whole => Ok(()),
        WitnessPlace::Table(table) => push_table(alloc, line, table),
        WitnessPlace::Column(table, column) => {
            push_table(alloc, line, table)?;
            push_column(alloc, line, column)
        }
    }
}

fn push_table(alloc: Global, line: &mut Vec<u8>, table: u32) -> Result<(), AllocError>
    ensures { OnOk result (line.new.items ≡ line.old.items ++ (codes " at table " ++ decimal table)) }
{
    push(line, b" at table ")?;
    push_decimal(alloc, line, table.into())
}

fn push_column(alloc: Global, line: &mut Vec<u8>, column: u32) -> Result<(), AllocError>
    ensures { OnOk result (line.new.items ≡ line.old.items ++ (codes " column " ++ decimal column)) }
{
    push(line, b" column ")?;
    push_decimal(alloc, line, column.into())
}

/// The line of columns that take too many bits.
pub fn too_large_line(alloc: Global, log_bits: u32) -> Result<Vec<u8>, AllocError>
    ensures { IfOk result (λ line. line.items ≡ too_large_line log_bits) }
{
    let line = format!(in alloc; "too large: log bits {log_bits}\n")?;
    Ok(line.into_bytes())
}

/// The line of a file that has too many bytes.
pub fn too_long_line(alloc: Global, limit: u64) -> Result<Vec<u8>, AllocError>
    ensures { IfOk result (λ line. line.items ≡ too_long_line limit) }
{
    let line = format!(in alloc; "too long: more than {limit} bytes\n")?;
    Ok(line.into_bytes())
}
