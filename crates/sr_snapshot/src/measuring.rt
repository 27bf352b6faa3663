//! How long the parts of a snapshot are. Nothing is written for it, and no row is copied.

ghost use Rattle.std.specs.Prelude.{◌≡◌, ◌+◌, length, IfOk};
ghost use Rattle.std.specs.List.{flat_map};
ghost use Rattle.sr_base.specs.Fields.{bytes_spelling, name_spelling};
ghost use Rattle.sr_base.specs.Values.{value_spelling, row_spelling};
ghost use Rattle.sr_rows.specs.Walks.{table_rows};
ghost use Rattle.sr_snapshot.specs.Parts.{book_line, rows_of};

use sr_base::{Name, NoMemory, Row, Text, Value};
use sr_book::Book;
use sr_rows::Rows;
use std::alloc::AllocError;

/// The count of a list, or the length of a text.
pub(crate) const COUNT: u64 = 4;

/// The length of a name, and the eight numbers of a book.
const BOOK: u64 = 65;

/// A sum; no memory holds more than 2^64 - 1 of anything.
pub(crate) fn sum(one: u64, other: u64) -> Result<u64, NoMemory>
    ensures sum { IfOk result (λ both. both ≡ one + other) }
{
    match one.checked_add(other) {
        Some(both) => Ok(both),
        None => Err(AllocError),
    }
}

#[tactic(auto, using(crate::proofs::Lengths::lengths))]
pub(crate) fn name_length(name: &Name) -> Result<u64, NoMemory>
    ensures length { IfOk result (λ n. n ≡ length (name_spelling name.now)) }
{
    sum(1, name.bytes().len() as u64)
}

#[tactic(auto, using(crate::proofs::Lengths::lengths))]
pub(crate) fn texts_length(texts: &[Text]) -> Result<u64, NoMemory>
    ensures length { IfOk result (λ n. n ≡ length (flat_map bytes_spelling texts.now)) }
{
    let mut length = 0u64;
    let mut left = texts;
    'texts: while let Some((text, rest)) = left.split_first() {
        length = sum(length, sum(COUNT, text.bytes().len() as u64)?)?;
        left = rest;
    }
    Ok(length)
}

#[tactic(auto, unfolding(sr_base::specs::Values::value_spelling), using(crate::proofs::Lengths::lengths))]
fn value_length(value: &Value) -> Result<u64, NoMemory>
    ensures length { IfOk result (λ n. n ≡ length (value_spelling value.now)) }
{
    match value {
        Value::Null => Ok(1),
        Value::Int(_) => Ok(5),
        Value::Big(_) => Ok(9),
        Value::Str(text) => sum(5, text.bytes().len() as u64),
        Value::Date(_) => Ok(5),
    }
}

#[tactic(auto, using(crate::proofs::Lengths::lengths))]
fn row_length(row: &Row) -> Result<u64, NoMemory>
    ensures length { IfOk result (λ n. n ≡ length (row_spelling row.now)) }
{
    let mut length = COUNT;
    let mut left = row.values();
    'values: while let Some((value, rest)) = left.split_first() {
        length = sum(length, value_length(value)?)?;
        left = rest;
    }
    Ok(length)
}

#[tactic(auto, using(crate::proofs::Lengths::lengths))]
pub(crate) fn rows_length(rows: &Rows, table: &Name) -> Result<u64, NoMemory>
    ensures length { IfOk result (λ n. n ≡ length (flat_map row_spelling (rows_of (table_rows rows.now.rows table.now)))) }
{
    let mut length = 0u64;
    let mut walk = rows.walk(table);
    'rows: while let Some((_key, row)) = walk.next() {
        length = sum(length, row_length(row)?)?;
    }
    Ok(length)
}

#[tactic(auto, using(crate::proofs::Lengths::lengths))]
pub(crate) fn books_length(books: &[(Name, Book)]) -> Result<u64, NoMemory>
    ensures length { IfOk result (λ n. n ≡ length (flat_map book_line books.now)) }
{
    let mut length = 0u64;
    let mut left = books;
    'books: while let Some((line, rest)) = left.split_first() {
        length = sum(length, sum(BOOK, line.0.bytes().len() as u64)?)?;
        left = rest;
    }
    Ok(length)
}
