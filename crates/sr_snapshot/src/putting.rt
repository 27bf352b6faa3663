//! The fields of a snapshot, put into a file one behind the other.

ghost use Rattle.std.specs.Prelude.{◌≡◌, ◌≤◌, ◌++◌, length, IsTrue, OnOk, IfErr, IfOk};
ghost use Rattle.std.specs.Int.{w32, w64, to_be_bytes};
ghost use Rattle.std.specs.List.{flat_map};
ghost use Rattle.sr_base.specs.Fields.{bytes_spelling, list_spelling, name_spelling};
ghost use Rattle.sr_base.specs.Values.{row_spelling};
ghost use Rattle.sr_logform.specs.Entries.{table_spelling};
ghost use Rattle.sr_rows.specs.Walks.{table_rows};
ghost use Rattle.sr_site.specs.Files.{bytes_of};
ghost use Rattle.sr_snapshot.specs.Parts.{book_line, book_spelling, four_spelling, longest, magic, rows_of};
ghost use Rattle.sr_snapshot.specs.Inner.Writing.{HasPut, PutCause};

use crate::fault::SnapFault;
use crate::pieces::{Out, flush_full};
use sr_base::{
    Name, NoMemory, Offset, Row, Text, write_name, write_row, write_text, write_u32, write_u64,
};
use sr_book::Book;
use sr_rows::Rows;
use sr_site::{Disk, File};
use std::alloc::{AllocError, Global};

/// The first bytes of a snapshot.
pub const MAGIC: [u8; 8] = [b'S', b'R', b'S', b'N', b'P', b'0', b'0', b'1'];

/// Puts all that stands before the tables.
pub(crate) fn put_catalog<S: Disk>(
    alloc: Global,
    site: &mut S,
    file: File,
    offset: Offset,
    publisher: &Name,
    texts: &[Text],
    out: &mut Out,
) -> Result<(), SnapFault>
    requires short { length (list_spelling bytes_spelling texts.now) ≤ longest }
    requires at { IsTrue (S.seen site.old).observable → out.old.place ≡ length (bytes_of (S.seen site.old).files file) }
    ensures put { OnOk result (HasPut file (magic ++ (to_be_bytes w64 offset.0 ++ (name_spelling publisher.now ++ list_spelling bytes_spelling texts.now))) (S.seen site.old) (S.seen site.new) out.old.buffer.items out.new.buffer.items out.new.place) }
    ensures cause { IfErr result (PutCause file (S.seen site.old) (S.seen site.new)) }
{
    write_head(alloc, offset, publisher, texts.len(), &mut out.buffer)?;
    put_texts(alloc, site, file, texts, out)?;
    Ok(())
}

/// Adds the magic, the offset, the publisher and the count of the statements.
fn write_head(
    alloc: Global,
    offset: Offset,
    publisher: &Name,
    count: usize,
    buffer: &mut Vec<u8>,
) -> Result<(), NoMemory>
    ensures added { OnOk result (buffer.new.items ≡ buffer.old.items ++ (magic ++ (to_be_bytes w64 offset.0 ++ (name_spelling publisher.now ++ to_be_bytes w32 count)))) }
{
    buffer.extend_from_slice(&MAGIC)?;
    write_u64(alloc, offset.0, buffer)?;
    write_name(alloc, publisher, buffer)?;
    write_count(alloc, count, buffer)?;
    Ok(())
}

/// Adds the count of a list. 2^32 items are taken for want of memory.
pub(crate) fn write_count(alloc: Global, count: usize, buffer: &mut Vec<u8>) -> Result<(), NoMemory>
    ensures added { OnOk result (buffer.new.items ≡ buffer.old.items ++ to_be_bytes w32 count) }
{
    let Ok(count) = u32::try_from(count) else {
        return Err(AllocError);
    };
    write_u32(alloc, count, buffer)?;
    Ok(())
}

fn put_texts<S: Disk>(
    alloc: Global,
    site: &mut S,
    file: File,
    texts: &[Text],
    out: &mut Out,
) -> Result<(), SnapFault>
    requires short { length (flat_map bytes_spelling texts.now) ≤ longest }
    requires at { IsTrue (S.seen site.old).observable → out.old.place ≡ length (bytes_of (S.seen site.old).files file) }
    ensures put { OnOk result (HasPut file (flat_map bytes_spelling texts.now) (S.seen site.old) (S.seen site.new) out.old.buffer.items out.new.buffer.items out.new.place) }
    ensures cause { IfErr result (PutCause file (S.seen site.old) (S.seen site.new)) }
{
    let mut left = texts;
    'texts: while let Some((text, rest)) = left.split_first() {
        put_text(alloc, site, file, text, out)?;
        left = rest;
    }
    Ok(())
}

fn put_text<S: Disk>(
    alloc: Global,
    site: &mut S,
    file: File,
    text: &Text,
    out: &mut Out,
) -> Result<(), SnapFault>
    requires short { length (bytes_spelling text.now) ≤ longest }
    requires at { IsTrue (S.seen site.old).observable → out.old.place ≡ length (bytes_of (S.seen site.old).files file) }
    ensures put { OnOk result (HasPut file (bytes_spelling text.now) (S.seen site.old) (S.seen site.new) out.old.buffer.items out.new.buffer.items out.new.place) }
    ensures cause { IfErr result (PutCause file (S.seen site.old) (S.seen site.new)) }
{
    write_text(alloc, text, &mut out.buffer)?;
    flush_full(site, file, out)?;
    Ok(())
}

/// Puts the name of a table, the count of its rows, and the rows.
pub(crate) fn put_table<S: Disk>(
    alloc: Global,
    site: &mut S,
    file: File,
    rows: &Rows,
    table: &Name,
    out: &mut Out,
) -> Result<(), SnapFault>
    requires short { length (table_spelling (table.now, rows_of (table_rows rows.now.rows table.now))) ≤ longest }
    requires at { IsTrue (S.seen site.old).observable → out.old.place ≡ length (bytes_of (S.seen site.old).files file) }
    ensures put { OnOk result (HasPut file (table_spelling (table.now, rows_of (table_rows rows.now.rows table.now))) (S.seen site.old) (S.seen site.new) out.old.buffer.items out.new.buffer.items out.new.place) }
    ensures cause { IfErr result (PutCause file (S.seen site.old) (S.seen site.new)) }
{
    write_name(alloc, table, &mut out.buffer)?;
    write_count(alloc, count_of(rows, table)?, &mut out.buffer)?;
    put_rows(alloc, site, file, rows, table, out)?;
    Ok(())
}

/// How many rows a table has. It takes a step for each.
fn count_of(rows: &Rows, table: &Name) -> Result<usize, NoMemory>
    ensures count { IfOk result (λ count. count ≡ length (rows_of (table_rows rows.now.rows table.now))) }
{
    let mut count = 0usize;
    let mut walk = rows.walk(table);
    'rows: while let Some(_) = walk.next() {
        let Some(more) = count.checked_add(1) else {
            return Err(AllocError);
        };
        count = more;
    }
    Ok(count)
}

fn put_rows<S: Disk>(
    alloc: Global,
    site: &mut S,
    file: File,
    rows: &Rows,
    table: &Name,
    out: &mut Out,
) -> Result<(), SnapFault>
    requires short { length (flat_map row_spelling (rows_of (table_rows rows.now.rows table.now))) ≤ longest }
    requires at { IsTrue (S.seen site.old).observable → out.old.place ≡ length (bytes_of (S.seen site.old).files file) }
    ensures put { OnOk result (HasPut file (flat_map row_spelling (rows_of (table_rows rows.now.rows table.now))) (S.seen site.old) (S.seen site.new) out.old.buffer.items out.new.buffer.items out.new.place) }
    ensures cause { IfErr result (PutCause file (S.seen site.old) (S.seen site.new)) }
{
    let mut walk = rows.walk(table);
    'rows: while let Some((_key, row)) = walk.next() {
        put_row(alloc, site, file, row, out)?;
    }
    Ok(())
}

#[inline(always)]
fn put_row<S: Disk>(
    alloc: Global,
    site: &mut S,
    file: File,
    row: &Row,
    out: &mut Out,
) -> Result<(), SnapFault>
    requires short { length (row_spelling row.now) ≤ longest }
    requires at { IsTrue (S.seen site.old).observable → out.old.place ≡ length (bytes_of (S.seen site.old).files file) }
    ensures put { OnOk result (HasPut file (row_spelling row.now) (S.seen site.old) (S.seen site.new) out.old.buffer.items out.new.buffer.items out.new.place) }
    ensures cause { IfErr result (PutCause file (S.seen site.old) (S.seen site.new)) }
{
    write_row(alloc, row, &mut out.buffer)?;
    flush_full(site, file, out)?;
    Ok(())
}

/// Puts the count of the books, and each user with its book.
pub(crate) fn put_books<S: Disk>(
    alloc: Global,
    site: &mut S,
    file: File,
    books: &[(Name, Book)],
    out: &mut Out,
) -> Result<(), SnapFault>
    requires at { IsTrue (S.seen site.old).observable → out.old.place ≡ length (bytes_of (S.seen site.old).files file) }
    ensures put { OnOk result (HasPut file (list_spelling book_line books.now) (S.seen site.old) (S.seen site.new) out.old.buffer.items out.new.buffer.items out.new.place) }
    ensures cause { IfErr result (PutCause file (S.seen site.old) (S.seen site.new)) }
{
    write_count(alloc, books.len(), &mut out.buffer)?;
    let mut left = books;
    'books: while let Some((line, rest)) = left.split_first() {
        put_book(alloc, site, file, &line.0, &line.1, out)?;
        left = rest;
    }
    Ok(())
}

fn put_book<S: Disk>(
    alloc: Global,
    site: &mut S,
    file: File,
    user: &Name,
    book: &Book,
    out: &mut Out,
) -> Result<(), SnapFault>
    requires at { IsTrue (S.seen site.old).observable → out.old.place ≡ length (bytes_of (S.seen site.old).files file) }
    ensures put { OnOk result (HasPut file (book_line (user.now, book.now)) (S.seen site.old) (S.seen site.new) out.old.buffer.items out.new.buffer.items out.new.place) }
    ensures cause { IfErr result (PutCause file (S.seen site.old) (S.seen site.new)) }
{
    write_name(alloc, user, &mut out.buffer)?;
    write_book(alloc, book, &mut out.buffer)?;
    flush_full(site, file, out)?;
    Ok(())
}

/// Adds the eight numbers of a book.
fn write_book(alloc: Global, book: &Book, buffer: &mut Vec<u8>) -> Result<(), NoMemory>
    ensures added { OnOk result (buffer.new.items ≡ buffer.old.items ++ book_spelling book.now) }
{
    write_four(
        alloc,
        book.log_sent,
        book.confirm_sent,
        book.send_count,
        book.resend_count,
        buffer,
    )?;
    write_four(
        alloc,
        book.log_received,
        book.confirm_received,
        book.receive_count,
        book.rereceive_count,
        buffer,
    )?;
    Ok(())
}

/// Adds four numbers.
fn write_four(
    alloc: Global,
    one: u64,
    two: u64,
    three: u64,
    four: u64,
    buffer: &mut Vec<u8>,
) -> Result<(), NoMemory>
    ensures added { OnOk result (buffer.new.items ≡ buffer.old.items ++ four_spelling one two three four) }
{
    write_u64(alloc, one, buffer)?;
    write_u64(alloc, two, buffer)?;
    write_u64(alloc, three, buffer)?;
    write_u64(alloc, four, buffer)?;
    Ok(())
}
