//! The values of an array: numbers where it is picked, and else words or bytes.

ghost use Rattle.std.specs.Prelude.{◌≡◌, ◌+◌, ◌*◌, ◌-◌, ◌≤◌, ◌<◌, map, length, true, false, IfOk};
ghost use Rattle.std.specs.Prelude.{min, ◌^◌};
ghost use Rattle.viz_column.specs.Kinds.{size_of, fits};
ghost use Rattle.viz_lex.specs.Reading.{Reads, fault_at};
ghost use Rattle.viz_lex.specs.Numbers.{whole_at};
ghost use Rattle.viz_lex.specs.Steps.{start_at};
ghost use Rattle.viz_lex.specs.Readers.{bytes_at};
ghost use Rattle.viz_attr.specs.Values.{kind_of, firsts, block_numbers};
ghost use Rattle.viz_attr.specs.Steps.{value_at, others_at, tuple_at, tuples_at, column_at};
ghost use Rattle.viz_attr.specs.Steps.{text_values_at, line_bytes_at, block_values_at, values_at};
ghost use Rattle.viz_attr.specs.Types.{bytes_of};
ghost use Rattle.viz_lex.specs.Passing.{words_at};
ghost use Rattle.viz_lex.specs.Words.{line_end_at};
ghost use Rattle.viz_column.specs.Bytes.{numbers_in};
ghost use Rattle.viz_attr.specs.Reads.{ReadsUnlessMemory};

use crate::stop::AttrStop;
use crate::types::Stored;
use std::alloc::{AllocError, Global};
use viz_column::{Column, Kind8, Lent, Number};
use viz_lex::{FileFault, FileKind, Lexer};

/// A fault at the word that is next behind a place.
#[tactic(auto, unfolding(viz_lex::specs::Words::word_at))]
fn at_word(bytes: &[u8], place: u64, kind: FileKind) -> FileFault
    requires { place ≤ length bytes.now }
    ensures { result ≡ fault_at kind (start_at (record { bytes = bytes.now; place = place })) }
{
    let start = match Lexer::new(&bytes[place as usize..]).word() {
        Some(word) => place + word.start,
        None => bytes.len() as u64,
    };
    FileFault { kind, place: start }
}

/// The next word as a number, with the four clauses that callers need.
fn next_whole(lexer: &mut Lexer<'_>) -> Result<i128, FileFault>
    ensures read { Reads (λ n. n) result lexer.new (whole_at lexer.old) }
    ensures kept { lexer.new.bytes ≡ lexer.old.bytes }
    ensures onward { lexer.old.place ≤ lexer.new.place }
    ensures at_most { lexer.new.place ≤ length lexer.old.bytes }
{
    lexer.whole()
}

/// One value.
#[tactic(auto, unfolding(crate::specs::Steps::value_at))]
fn value<T: Number>(lexer: &mut Lexer<'_>) -> Result<T, FileFault>
    ensures { Reads T.value result lexer.new (value_at T.kind lexer.old) }
{
    let before = lexer.place();
    let n = next_whole(lexer)?;
    match T::of_whole(n) {
        Some(x) => Ok(x),
        None => Err(at_word(lexer.bytes(), before, FileKind::ValueRange)),
    }
}

/// So many values, of which none is kept.
fn others<T: Number>(lexer: &mut Lexer<'_>, count: u64) -> Result<(), FileFault>
    ensures { Reads (λ done. done) result lexer.new (others_at T.kind count lexer.old) }
{
    for _ in 0..count {
        value::<T>(lexer)?;
    }
    Ok(())
}

/// One tuple, of which the first value is kept.
#[tactic(auto, unfolding(crate::specs::Steps::tuple_at))]
fn tuple<T: Number>(lexer: &mut Lexer<'_>, components: u64) -> Result<T, FileFault>
    ensures { Reads T.value result lexer.new (tuple_at T.kind components lexer.old) }
{
    let first = value::<T>(lexer)?;
    others::<T>(lexer, components.saturating_sub(1))?;
    Ok(first)
}

/// So many tuples in ASCII.
fn tuples<T: Number>(
    alloc: Global,
    lexer: &mut Lexer<'_>,
    count: u64,
    components: u64,
) -> Result<Vec<T>, AttrStop>
    ensures { ReadsUnlessMemory (λ v. map T.value v.items) result lexer.new
        (tuples_at T.kind components count lexer.old) }
{
    let left = lexer.bytes().len() as u64 - lexer.place();
    let room = count.min(left / 2 + 1);
    let mut numbers = Vec::with_capacity(alloc, room as usize)?;
    for _ in 0..count {
        numbers.push(tuple::<T>(lexer, components)?)?;
    }
    Ok(numbers)
}

/// So many tuples in ASCII, as a column of this kind.
#[tactic(auto, unfolding(crate::specs::Steps::column_at))]
fn column(
    alloc: Global,
    lexer: &mut Lexer<'_>,
    kind: Kind8,
    count: u64,
    components: u64,
) -> Result<Column, AttrStop>
    ensures { ReadsUnlessMemory (λ c. c) result lexer.new
        (column_at kind components count lexer.old) }
{
    let column = match kind {
        Kind8::I8 => Column::of(tuples::<i8>(alloc, lexer, count, components)?),
        Kind8::U8 => Column::of(tuples::<u8>(alloc, lexer, count, components)?),
        Kind8::I16 => Column::of(tuples::<i16>(alloc, lexer, count, components)?),
        Kind8::U16 => Column::of(tuples::<u16>(alloc, lexer, count, components)?),
        Kind8::I32 => Column::of(tuples::<i32>(alloc, lexer, count, components)?),
        Kind8::U32 => Column::of(tuples::<u32>(alloc, lexer, count, components)?),
        Kind8::I64 => Column::of(tuples::<i64>(alloc, lexer, count, components)?),
        Kind8::U64 => Column::of(tuples::<u64>(alloc, lexer, count, components)?),
    };
    Ok(column)
}

/// One more than there are bytes.
fn more_than(bytes: &[u8]) -> usize
    ensures { result ≡ length bytes.now + 1 }
{
    bytes.len() + 1
}

/// Passes over so many words.
fn pass(lexer: &mut Lexer<'_>, count: u64) -> Result<(), FileFault>
    ensures { Reads (λ done. done) result lexer.new (words_at count lexer.old) }
{
    lexer.pass(count)
}

/// Passes over the words of so many tuples. More than 64 bits count are more than there are bytes.
pub(crate) fn pass_tuples(
    lexer: &mut Lexer<'_>,
    tuples: u64,
    components: u64,
) -> Result<(), FileFault>
    ensures { Reads (λ done. done) result lexer.new (words_at (tuples * components) lexer.old) }
{
    let _most = more_than(lexer.bytes());
    pass(lexer, tuples.saturating_mul(components))
}

/// The values of an array in ASCII.
#[tactic(auto, unfolding(crate::specs::Steps::text_values_at))]
fn text_values(
    alloc: Global,
    lexer: &mut Lexer<'_>,
    wanted: bool,
    stored: Stored,
    tuples: u64,
    components: u64,
) -> Result<Option<Column>, AttrStop>
    ensures { ReadsUnlessMemory (λ c. c) result lexer.new
        (text_values_at wanted stored tuples components lexer.old) }
{
    if wanted {
        let column = column(alloc, lexer, stored.kind(), tuples, components)?;
        return Ok(Some(column));
    }
    pass_tuples(lexer, tuples, components)?;
    Ok(None)
}

/// The next so many bytes.
#[tactic(auto, unfolding(viz_lex::specs::Readers::bytes_at))]
fn block<'a>(lexer: &mut Lexer<'a>, count: u64) -> Result<&'a [u8], FileFault>
    ensures read { Reads (λ bytes. bytes.now) result lexer.new (bytes_at count lexer.old) }
    ensures long { IfOk result (λ bytes. length bytes.now ≡ count) }
    ensures few { IfOk result (λ bytes. length bytes.now ≤ length lexer.old.bytes) }
{
    let span = lexer.block(count)?;
    Ok(lexer.text(&span))
}

/// The bytes of so many tuples, each of so many bytes.
fn tuple_block<'a>(lexer: &mut Lexer<'a>, tuples: u64, width: u64) -> Result<&'a [u8], FileFault>
    ensures read { Reads (λ bytes. bytes.now) result lexer.new
        (bytes_at (tuples * width) lexer.old) }
    ensures long { IfOk result (λ bytes. length bytes.now ≡ tuples * width) }
{
    let _most = more_than(lexer.bytes());
    block(lexer, tuples.saturating_mul(width))
}

/// The end of the line.
fn line_end(lexer: &mut Lexer<'_>) -> Result<(), FileFault>
    ensures { Reads (λ done. done) result lexer.new (line_end_at lexer.old) }
{
    lexer.line_end()
}

/// The same behind the end of the line.
#[tactic(auto, unfolding(crate::specs::Steps::line_bytes_at))]
pub(crate) fn line_bytes<'a>(
    lexer: &mut Lexer<'a>,
    tuples: u64,
    width: u64,
) -> Result<&'a [u8], FileFault>
    ensures read { Reads (λ bytes. bytes.now) result lexer.new
        (line_bytes_at (tuples * width) lexer.old) }
    ensures long { IfOk result (λ bytes. length bytes.now ≡ tuples * width) }
{
    line_end(lexer)?;
    let bytes = tuple_block(lexer, tuples, width)?;
    Ok(bytes)
}

/// The first number of each tuple.
fn firsts<T: Number>(
    alloc: Global,
    numbers: &[T],
    tuples: u64,
    components: u64,
) -> Result<Vec<T>, AllocError>
    requires all { length numbers.now ≡ tuples * components }
    requires some { 1 ≤ components }
    ensures { IfOk result (λ v.
        map T.value v.items ≡ firsts components tuples (map T.value numbers.now)) }
{
    let mut kept = Vec::with_capacity(alloc, tuples as usize)?;
    for i in 0..tuples {
        kept.push(numbers[(i * components) as usize])?;
    }
    Ok(kept)
}

/// The first number of each tuple of a column.
fn first_column(
    alloc: Global,
    numbers: &Column,
    tuples: u64,
    components: u64,
) -> Result<Column, AllocError>
    requires all { length numbers.now.items ≡ tuples * components }
    requires some { 1 ≤ components }
    ensures { IfOk result (λ c.
        c ≡ record {
          kind = numbers.now.kind;
          items = firsts components tuples numbers.now.items;
        }) }
{
    let column = match numbers.slice() {
        Lent::I8(s) => Column::of(firsts(alloc, s, tuples, components)?),
        Lent::U8(s) => Column::of(firsts(alloc, s, tuples, components)?),
        Lent::I16(s) => Column::of(firsts(alloc, s, tuples, components)?),
        Lent::U16(s) => Column::of(firsts(alloc, s, tuples, components)?),
        Lent::I32(s) => Column::of(firsts(alloc, s, tuples, components)?),
        Lent::U32(s) => Column::of(firsts(alloc, s, tuples, components)?),
        Lent::I64(s) => Column::of(firsts(alloc, s, tuples, components)?),
        Lent::U64(s) => Column::of(firsts(alloc, s, tuples, components)?),
    };
    Ok(column)
}

/// The first number of each tuple in a block. A tuple of one number is read as it stands.
fn block_column(
    alloc: Global,
    kind: Kind8,
    tuples: u64,
    components: u64,
    bytes: &[u8],
) -> Result<Column, AllocError>
    requires all { length bytes.now ≡ tuples * (components * size_of kind) }
    requires some { 1 ≤ components }
    ensures { IfOk result (λ c.
        c ≡ record { kind = kind; items = firsts components tuples (numbers_in kind bytes.now) }) }
{
    let numbers = Column::from_be(alloc, kind, bytes)?;
    if components == 1 {
        return Ok(numbers);
    }
    first_column(alloc, &numbers, tuples, components)
}

/// The values of an array in BINARY.
#[tactic(auto, unfolding(crate::specs::Steps::block_values_at))]
fn block_values(
    alloc: Global,
    lexer: &mut Lexer<'_>,
    wanted: bool,
    stored: Stored,
    tuples: u64,
    components: u64,
) -> Result<Option<Column>, AttrStop>
    requires some { 1 ≤ components }
    requires few { components < 2 ^ 31 }
    requires whole { wanted ≡ true → bytes_of stored ≡ size_of (kind_of stored) }
    ensures { ReadsUnlessMemory (λ c. c) result lexer.new
        (block_values_at wanted stored tuples components lexer.old) }
{
    let bytes = line_bytes(lexer, tuples, components * stored.bytes())?;
    if !wanted {
        return Ok(None);
    }
    let column = block_column(alloc, stored.kind(), tuples, components, bytes)?;
    Ok(Some(column))
}

/// The values of an array: so many tuples, each of so many components.
#[tactic(auto, unfolding(crate::specs::Steps::values_at))]
pub(crate) fn values(
    alloc: Global,
    lexer: &mut Lexer<'_>,
    binary: bool,
    wanted: bool,
    stored: Stored,
    tuples: u64,
    components: u64,
) -> Result<Option<Column>, AttrStop>
    requires some { 1 ≤ components }
    requires few { components < 2 ^ 31 }
    requires whole { wanted ≡ true → bytes_of stored ≡ size_of (kind_of stored) }
    ensures { ReadsUnlessMemory (λ c. c) result lexer.new
        (values_at binary wanted stored tuples components lexer.old) }
{
    if binary {
        return block_values(alloc, lexer, wanted, stored, tuples, components);
    }
    text_values(alloc, lexer, wanted, stored, tuples, components)
}
