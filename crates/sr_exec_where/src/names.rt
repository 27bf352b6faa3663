ghost use Rattle.std.specs.Prelude.{◌≡◌, [], map, IfOk, bytes_eq};
ghost use Rattle.std.specs.List.{list_any};
ghost use Rattle.sr_exec_where.specs.Checks.{no_column, is_among, named_again};
ghost use Rattle.sr_catalog_schema.specs.Firsts.{first_among};
ghost use Rattle.sr_exec_where.specs.Naming.{names_of};

use crate::lists::push;
use sr_base::{Copied, Name, NoMemory, Seq};
use sr_catalog_schema::Column;
use std::alloc::Global;

pub(crate) fn is_same(left: &Name, right: &Name) -> bool
    ensures { result ≡ bytes_eq left.now right.now }
{
    left.bytes() == right.bytes()
}

/// Whether a name is that of a column. It looks at each column.
pub(crate) fn is_column(columns: &[Column], name: &Name) -> bool
    ensures { result ≡ list_any (λ c. bytes_eq name.now c.name) columns.now }
{
    let mut left = columns;
    'columns: while let Some((column, rest)) = left.split_first() {
        if is_same(name, &column.name) {
            return true;
        }
        left = rest;
    }
    false
}

/// The name, where it is that of no column.
pub(crate) fn no_column(
    alloc: Global,
    columns: &[Column],
    name: &Name,
) -> Result<Option<Name>, NoMemory>
    ensures unknown { IfOk result (λ found. found ≡ no_column columns.now name.now) }
{
    if is_column(columns, name) {
        return Ok(None);
    }
    Ok(Some(name.copy(alloc)?))
}

/// The first of the names that is that of no column. Each looks through the columns.
pub(crate) fn unknown_name(
    alloc: Global,
    columns: &[Column],
    names: &[Name],
) -> Result<Option<Name>, NoMemory>
    ensures unknown { IfOk result (λ found. found ≡ first_among (no_column columns.now) names.now) }
{
    let mut left = names;
    'names: while let Some((name, rest)) = left.split_first() {
        if let Some(unknown) = no_column(alloc, columns, name)? {
            return Ok(Some(unknown));
        }
        left = rest;
    }
    Ok(None)
}

/// Whether a name is among names. It looks at each.
pub(crate) fn is_among(name: &Name, names: &[Name]) -> bool
    ensures { result ≡ is_among name.now names.now }
{
    let mut left = names;
    'names: while let Some((other, rest)) = left.split_first() {
        if is_same(name, other) {
            return true;
        }
        left = rest;
    }
    false
}

/// The first name that stands again. It looks at the names before each; there are as many as columns at most.
pub(crate) fn named_again(alloc: Global, names: &[Name]) -> Result<Option<Name>, NoMemory>
    ensures again { IfOk result (λ found. found ≡ named_again [] names.now) }
{
    let mut before = Vec::new(alloc);
    let mut left = names;
    'names: while let Some((name, rest)) = left.split_first() {
        if is_among(name, before.as_slice()) {
            return Ok(Some(name.copy(alloc)?));
        }
        push(&mut before, name.copy(alloc)?)?;
        left = rest;
    }
    Ok(None)
}

/// The columns that an INSERT names: all of them where it names none.
pub fn names_of(alloc: Global, columns: &[Column], names: &Seq<Name>) -> Result<Seq<Name>, NoMemory>
    ensures names { IfOk result (λ found. found ≡ names_of columns.now names.now) }
{
    match names.as_slice() {
        [] => all_names(alloc, columns),
        [_, ..] => names.copy(alloc),
    }
}

fn all_names(alloc: Global, columns: &[Column]) -> Result<Seq<Name>, NoMemory>
    ensures names { IfOk result (λ found. found ≡ map (λ c. c.name) columns.now) }
{
    let mut names = Vec::with_capacity(alloc, columns.len())?;
    let mut left = columns;
    'columns: while let Some((column, rest)) = left.split_first() {
        push(&mut names, column.name.copy(alloc)?)?;
        left = rest;
    }
    Ok(Seq::from_vec(names))
}
